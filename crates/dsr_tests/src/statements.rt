//! Reading a statement: the example of dsr_statement, and a statement as it was written.
use crate::texts::TWO_STATEMENT;
use dsr_statement::{Line, ReadError, StatementFault, StatementReader};
use std::test::Fail;

/// The lines of a statement, up to one that may not stand where it does.
#[test]
fn lines_and_their_places(rt: HostRuntime) -> Result<(), Fail> {
    let mut reader = StatementReader::new(rt.alloc());
    let first = reader.line(b"REPORT\tR1\t2\t2024-01-01\t2024-01-31\t31");
    assert!(rt; matches!(&first, Ok(Line::Report(_))));
    // The line of the first file comes before that of the second.
    let second = reader.line(b"FILE\t2\t2\tOurs\t1\tWhole");
    assert!(rt; matches!(&second, Err(ReadError::Fault(StatementFault::Place))));
    Ok(())
}

/// A statement is read as it was written.
#[test]
fn a_statement_is_read(rt: HostRuntime) -> Result<(), Fail> {
    let mut reader = StatementReader::new(rt.alloc());
    for line in TWO_STATEMENT.split(|byte| *byte == b'\n') {
        if line.is_empty() {
            break;
        }
        let read = reader.line(line);
        assert!(rt; read.is_ok());
    }
    assert_eq!(rt; reader.finish(b"", false), Ok(()));
    assert_eq!(rt; reader.finish(b"LEDGER", false), Err(StatementFault::Cut));
    assert_eq!(rt; reader.finish(b"", true), Err(StatementFault::Read));
    Ok(())
}
