//! Which lines are read quickly. The contract says what such a line is read as, and not that it is.
use dsr_records::{CheckedLine, Kind};
use std::alloc::{AllocError, Global};
use std::test::Fail;

/// The bytes that a line is put before.
const BEHIND: &str =
    "................................................................................................";

/// Whether a line before other bytes is read quickly, as a record of this kind and of the block 7.
fn is_quick(alloc: Global, line: &str, kind: Kind) -> Result<bool, AllocError> {
    let mut page = Vec::new(alloc);
    page.extend_from_slice(line.as_bytes())?;
    page.extend_from_slice(BEHIND.as_bytes())?;
    Ok(match CheckedLine::usual(page.as_slice()) {
        Some((found, size)) => {
            size + 1 == line.len() && found.kind() == kind && found.id() == Some("7")
        }
        None => false,
    })
}

/// How many of these lines are read quickly, as records of this kind.
fn count_quick(alloc: Global, lines: &[&str], kind: Kind) -> Result<usize, AllocError> {
    let mut count = 0usize;
    for line in lines {
        if is_quick(alloc, line, kind)? {
            count = count.wrapping_add(1);
        }
    }
    Ok(count)
}

/// Usages with each count of digits that is read quickly, and of decimals.
const USAGES: [&str; 10] = [
    "SU01\t7\tS1\t1\t0.5\n",
    "SU01\t7\tS1\t12\t12.25\n",
    "SU01\t7\tS1\t123\t123.125\n",
    "SU01\t7\tS1\t1234\t1234.0625\n",
    "SU01\t7\tS1\t12345\t12345.03125\n",
    "SU01\t7\tS1\t123456\t123456.015625\n",
    "SU01\t7\tS1\t1234567\t1234567.0078125\n",
    "SU01\t7\tS1\t12345678\t12345678.00390625\n",
    "SU01\t7\tS1\t1\t1.001953125\n",
    "SU01\t7\tS1\t1\t1.0009765625\n",
];

/// Resources, with and without an ISRC, titles and artists, and with letters past ASCII.
const RESOURCES: [&str; 7] = [
    "AS01\t7\tGBABC2400001\tSong 1\tThe Lanterns\n",
    "AS01\t7\t\t\t\n",
    "AS01\t7\tGBABC2400001\tSong 1|Song One\tThe Lanterns|Ada Hart\n",
    "AS01\t7\tGBABC2400001\tA title that is quite long\tThe Lant\n",
    "AS01\t7\tGBABC2400001\tCaf\u{e9}\t\n",
    "AS01\t7\tGBABC2400001\t\u{e9}t\u{e9}|\u{590f}\tBj\u{f6}rk\n",
    "AS01\t7\tGBABC2400001\tSong 1\t\u{1f3b5}\n",
];

/// Works of fewer than 64 bytes and of more, with up to five parties, and with letters past ASCII.
const WORKS: [&str; 6] = [
    "MW01\t7\tT-1\tSong 1\tAda Hart\t50\n",
    "MW01\t7\t\t\t\t\n",
    "MW01\t7\tT-000000001-0\tSong 1\tParty 454|Party 455\t49.7500|49.7500\n",
    "MW01\t7\tT-1\tSong 1\tA|B|C|D|E\t20|20.0|20.00|20.000|20.0000\n",
    "MW01\t7\tT-000000001-0\tA title of 23 characters\tParty 1|Party 2\t100|0\n",
    "MW01\t7\tT-1\tD\u{e9}j\u{e0} vu\tJos\u{e9}|\u{c5}sa\t50|50\n",
];

/// Lines that are not read quickly, good and bad ones.
const DECLINED: [&str; 16] = [
    "SU01\t7\tS1\t-1\t0.5\n",
    "SU01\t7\tS1\t1\t1\n",
    "SU01\t7\tS1\t123456789\t0.5\n",
    "SU01\t7\tS1\t1\t1.00048828125\n",
    "SU01\t7\tS1\t1\t0.5\r\n",
    "SU01\t7\tS1\t1\t0.5\tmore\n",
    "SU01\t7\tS\u{e9}\t1\t0.5\n",
    "AS01\t\tGBABC2400001\t\t\n",
    "AS01\t7\tGBABC2400001\t\n",
    "AS01\t7\tGBABC240000\u{e9}\tSong 1\t\n",
    "AS01\t7\tGBABC2400001\tSong\u{1}\t\n",
    "AS01\t7\tGBABC2400001\tCaf\u{e9}\u{7f}\t\n",
    "AS02\t7\tGBABC2400001\t\t\n",
    "MW01\t7\tT-1\tSong 1\tAda Hart\t50|50\n",
    "MW01\t7\tT-1\tSong 1\tAda Hart\t100.5\n",
    "MW01\t7\tT-1\tSong 1\tAda Hart\n",
];

#[test]
fn usual_lines_are_read_quickly(rt: HostRuntime) -> Result<(), Fail> {
    assert_eq!(rt; count_quick(rt.alloc(), &USAGES, Kind::Usage)?, 10);
    assert_eq!(rt; count_quick(rt.alloc(), &RESOURCES, Kind::Resource)?, 7);
    assert_eq!(rt; count_quick(rt.alloc(), &WORKS, Kind::Work)?, 6);
    Ok(())
}

#[test]
fn other_lines_are_declined(rt: HostRuntime) -> Result<(), Fail> {
    for kind in [Kind::Usage, Kind::Resource, Kind::Work] {
        assert_eq!(rt; count_quick(rt.alloc(), &DECLINED, kind)?, 0);
    }
    Ok(())
}
