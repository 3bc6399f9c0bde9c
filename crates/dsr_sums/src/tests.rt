//! The totals of small statements.
use crate::{Rules, TotalsError, add_up};
use dsr_io::FromRead;
use dsr_statement::StatementFault;
use std::alloc::Global;
use std::test::Fail;

/// A sealed statement with two ledger lines, one of which two parties claim.
const STATEMENT: &str = "REPORT\tR1\t1\t2024-01-01\t2024-01-31\t31
FILE\t1\t1\tOurs\t2\tWhole
LEDGER\tGBABC2400001\tGB\tOnDemandStream\tGBP\t10\t0.5000000000
PARTY\tGBABC2400001\tGB\tOnDemandStream\tGBP\tP1\t0.2500000000
PARTY\tGBABC2400001\tGB\tOnDemandStream\tGBP\tP2\t0.1250000000
UNCLAIMED\tGBABC2400001\tGB\tOnDemandStream\tGBP\t0.1250000000
LEDGER\tGBABC2400002\tGB\tOnDemandStream\tGBP\t20\t1.0000000000
UNCLAIMED\tGBABC2400002\tGB\tOnDemandStream\tGBP\t1.0000000000
INPUT\t1\t0\te3b0c44298fc1c149afbf4c8996fb92427ae41e4649b934ca495991b7852b855
END\t9\tClean
";

/// What the statement adds up to.
const TOTALS: &str = "STATEMENT\t1\tR1\t1\t2024-01-01\t2024-01-31\tClean\t-
CURRENCY\tGBP\t30\t1.5000000000\t0.3750000000\t1.1250000000
MARKET\tGB\tOnDemandStream\tGBP\t30\t1.5000000000
PARTY\tP1\tGBP\t0.2500000000
PARTY\tP2\tGBP\t0.1250000000
";

/// Sealed statements without remarks.
const RULES: Rules = Rules {
    with_remarks: false,
    unsealed: false,
    same_message: false,
};

/// The text of the totals of a given statement, or why there is none.
fn totals_of(alloc: Global, statement: &str) -> Result<Vec<u8>, TotalsError> {
    let mut sources = [FromRead::new(statement.as_bytes())];
    add_up(alloc, 0, &mut sources, 1, RULES)
}

#[test]
fn a_statement_is_added_up(rt: HostRuntime) -> Result<(), Fail> {
    let totals = totals_of(rt.alloc(), STATEMENT)?;
    assert_eq!(rt; totals.as_slice(), TOTALS.as_bytes());
    Ok(())
}

#[test]
fn a_second_statement_of_one_report_is_refused(rt: HostRuntime) {
    let mut sources = [
        FromRead::new(STATEMENT.as_bytes()),
        FromRead::new(STATEMENT.as_bytes()),
    ];
    let refused = add_up(rt.alloc(), 0, &mut sources, 2, RULES);
    assert!(rt;
        matches!(
            &refused,
            Err(TotalsError::Refused(1, 1, StatementFault::Twice(0)))
        )
    );
}
