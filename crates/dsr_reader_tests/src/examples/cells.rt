//! The examples of dsr_cells.
use dsr_cells::{
    Amount, Day, Share, Texts, cell, count_cells, is_currency, read_texts_into, read_usages,
};
use std::test::Fail;

/// What three texts spell.
#[test]
fn what_texts_spell(rt: HostRuntime) -> Result<(), Fail> {
    // A share is a whole number of units of 0.0001 percent.
    let share = Share::read("12.5").map(|share| share.parts());
    assert_eq!(rt; share, Some(125_000));
    // The calendar has no 30 February.
    assert!(rt; Day::read("2024-02-30").is_none());
    assert!(rt; is_currency("GBP"));
    Ok(())
}

/// The cells of a usage and of a list of parties, and what they spell.
#[test]
fn cells_and_what_they_spell(rt: HostRuntime) -> Result<(), Fail> {
    let line = "SU01\tB1\tS1\t400\t2.4";
    assert_eq!(rt; count_cells(line), 5);
    assert_eq!(rt; cell(line, 3), Some("400"));
    assert_eq!(rt; read_usages("400"), Some(400));
    // An amount is a whole number of units of 10^-10.
    let amount = Amount::read("2.4").map(|amount| amount.units());
    assert_eq!(rt; amount, Some(24_000_000_000));
    // In a list a pipe separates two values, and a pipe of a value has a backslash before it.
    let mut parties = Texts::new(rt.alloc());
    read_texts_into(rt.alloc(), "Ada|Ben\\|Cole", &mut parties)?;
    let second = parties.get(1).map(|party| party.as_str());
    assert_eq!(rt; second, Some("Ben|Cole"));
    Ok(())
}
