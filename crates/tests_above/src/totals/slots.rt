//! Tests of slots that change one after another, of what a slot gives back, and of the laws.
use ratio_slots::{LooseRefusal, Slot, laws, put_loose, sum_of};

#[test]
fn a_fraction_goes_into_an_empty_slot_and_into_its_own(rt: HostRuntime) {
    let mut slots = [Slot::EMPTY; 2];
    assert!(rt; put_loose(&mut slots, 1, 36) == Ok(()));
    assert!(rt; put_loose(&mut slots, -1, 28) == Ok(()));
    assert!(rt; put_loose(&mut slots, 5, 36) == Ok(()));
    assert!(rt; put_loose(&mut slots, 1, 12) == Err(LooseRefusal::MoreRoom));
    // 6/36 - 1/28
    assert!(rt; sum_of(&slots, &mut [7; 14]) == Ok(Some((11, 84))));
}

#[test]
fn a_slot_gives_back_what_it_took(rt: HostRuntime) {
    let long = 1 << 64;
    for numer in [0, -5, long - 1, long, -long, i128::MAX, i128::MIN] {
        let slot = Slot::new(7, numer);
        assert!(rt; slot.denom() == 7 && slot.numer() == numer);
    }
}

#[test]
fn each_law_is_called(_rt: HostRuntime) {
    laws::additions();
    laws::merges();
    laws::takings_out();
    laws::tables();
    laws::reads();
    laws::sums();
    laws::steps();
    laws::bounds();
    laws::joined_rooms();
    laws::room_sums();
    laws::wide_reads();
    laws::lengths();
}
