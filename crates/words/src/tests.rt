// Words and drawings on examples. A refusal is compared by what it tells, since its number and its place
// are promised, and not its case.
use crate::drawing::draw_below;
use crate::park_miller::ParkMiller;
use crate::source::WordSource;
use crate::tape::Tape;
use std::alloc::Global;
use std::test::Fail;
use terms::Fault;

fn tape(heap: Global, span: u64, words: &[u32]) -> Result<Tape, Fail> {
    let mut tape = Tape::new(heap);
    tape.fill(span, words)?;
    Ok(tape)
}

#[test]
fn rejects_words_past_the_limit(rt: HostRuntime) -> Result<(), Fail> {
    let mut tape = tape(rt.alloc(), 4_294_967_296, &[4_294_967_295, 4_294_967_294])?;
    assert_eq!(rt; draw_below(&mut tape, 3).map_err(Fault::tells), Ok(2));
    assert_eq!(rt; tape.next_word(), None);
    Ok(())
}

#[test]
fn tells_how_many_words_were_read(rt: HostRuntime) -> Result<(), Fail> {
    let mut ending = tape(rt.alloc(), 10, &[9, 9])?;
    assert_eq!(rt;
        draw_below(&mut ending, 3).map_err(Fault::tells),
        Err((8, 2))
    );
    let mut rejected = tape(rt.alloc(), 10, &[9; 65])?;
    assert_eq!(rt;
        draw_below(&mut rejected, 3).map_err(Fault::tells),
        Err((9, 64))
    );
    assert_eq!(rt; rejected.next_word(), Some(9));
    Ok(())
}

#[test]
fn refuses_bounds_out_of_range(rt: HostRuntime) -> Result<(), Fail> {
    let mut tape = tape(rt.alloc(), 10, &[7])?;
    assert_eq!(rt; draw_below(&mut tape, 0).map_err(Fault::tells), Err((7, 0)));
    assert_eq!(rt;
        draw_below(&mut tape, 11).map_err(Fault::tells),
        Err((7, 0))
    );
    assert_eq!(rt; draw_below(&mut tape, 10).map_err(Fault::tells), Ok(7));
    Ok(())
}

#[test]
fn refused_fillings_change_nothing(rt: HostRuntime) -> Result<(), Fail> {
    let mut tape = tape(rt.alloc(), 10, &[7])?;
    assert_eq!(rt; tape.fill(0, &[]).map_err(Fault::tells), Err((23, 0)));
    assert_eq!(rt;
        tape.fill(4_294_967_297, &[]).map_err(Fault::tells),
        Err((23, 0))
    );
    assert_eq!(rt;
        tape.fill(5, &[4, 6, 5]).map_err(Fault::tells),
        Err((23, 1))
    );
    assert_eq!(rt; tape.span(), 10);
    assert_eq!(rt; tape.next_word(), Some(7));
    Ok(())
}

#[test]
fn seed_one_starts_as_known(rt: HostRuntime) -> Result<(), Fail> {
    let mut words = ParkMiller::new(1)?;
    assert_eq!(rt; words.span(), 2_147_483_646);
    assert_eq!(rt; words.next_word(), Some(16_806));
    assert_eq!(rt; words.next_word(), Some(282_475_248));
    assert_eq!(rt; words.next_word(), Some(1_622_650_072));
    Ok(())
}

#[test]
fn refuses_seeds_out_of_range(rt: HostRuntime) {
    assert_eq!(rt;
        ParkMiller::new(0).map_err(Fault::tells).err(),
        Some((24, 0))
    );
    assert_eq!(rt;
        ParkMiller::new(2_147_483_647).map_err(Fault::tells).err(),
        Some((24, 0))
    );
    assert_eq!(rt;
        ParkMiller::new(2_147_483_646).map_err(Fault::tells).err(),
        None
    );
}
