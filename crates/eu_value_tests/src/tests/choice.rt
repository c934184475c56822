//! Draws, with what they leave worked out by hand.
use eu_clock::{FirstChooser, ListChooser, RngChooser, choose};
use std::test::Fail;

#[test]
fn two_of_four_are_drawn(rt: HostRuntime) -> Result<(), Fail> {
    let words = Vec::from_slice(rt.alloc(), [3u64, 0].as_slice())?;
    let mut chooser = ListChooser::new(words);
    let mut items = [0u8, 1, 2, 3];
    choose(&mut items, 2, &mut chooser);
    assert!(rt; items == [3, 1, 2, 0]);
    Ok(())
}

#[test]
fn the_first_chooser_leaves_the_order(rt: HostRuntime) {
    let mut items = [5u8, 6, 7];
    choose(&mut items, 3, &mut FirstChooser);
    assert!(rt; items == [5, 6, 7]);
}

#[test]
fn a_seed_draws_alike(rt: HostRuntime) {
    let mut first = [0u32, 1, 2, 3, 4, 5, 6, 7];
    let mut second = first;
    choose(&mut first, 8, &mut RngChooser::seeded(42));
    choose(&mut second, 8, &mut RngChooser::seeded(42));
    assert!(rt; first == second);
    assert!(rt; first != [0, 1, 2, 3, 4, 5, 6, 7]);
}
