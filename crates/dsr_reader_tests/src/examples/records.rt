//! The example of dsr_records.
use dsr_records::{Block, Kind, Layout, check_line};
use std::alloc::Global;
use std::test::Fail;

/// Writes the record of a line into a block: a resource opens it, a work or a usage is appended.
fn write_line(alloc: Global, line: &str, block: &mut Block) -> Result<(), Fail> {
    let Ok(checked) = check_line(&Layout::standard(), line) else {
        return Err(Fail::new("a line with a fault"));
    };
    if checked.kind() == Kind::Resource {
        checked.open_block(alloc, block)?;
    } else if block.len() < 64 {
        checked.append_to(alloc, block)?;
    }
    Ok(())
}

/// Writes the records of lines into a block.
fn write_lines(alloc: Global, lines: &[&str], block: &mut Block) -> Result<(), Fail> {
    for line in lines {
        write_line(alloc, line, block)?;
    }
    Ok(())
}

/// A block of a resource and a usage.
#[test]
fn a_block_of_two_lines(rt: HostRuntime) -> Result<(), Fail> {
    let lines = ["AS01\tB1\tGBAYE0601498", "SU01\tB1\tS1\t400\t2.4"];
    let mut block = Block::empty(rt.alloc());
    write_lines(rt.alloc(), &lines, &mut block)?;
    let is_right = block.resource.isrc.as_str() == "GBAYE0601498" && block.usages.len() == 1;
    drop(block);
    assert!(rt; is_right);
    Ok(())
}
