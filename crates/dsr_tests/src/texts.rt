//! The files of the tests, and the statements that are expected of them.

/// A report in one file, with two blocks.
pub const CLEAN: &[u8] = b"\
HEAD\tR1\t1\t1\t2024-01-01\t2024-01-31\tS\tL\n\
SY01\tS1\tGB\tOnDemandStream\tGBP\t30\t1.5\n\
AS01\t1\tGBABC2400001\tSong\tBand\n\
MW01\t1\tW1\tSong\tP1|P2\t50|25\n\
SU01\t1\tS1\t10\t0.5\n\
AS01\t2\tGBABC2400002\tOther\tBand\n\
SU01\t2\tS1\t20\t1\n\
FOOT\t8\t1\t2\n";

/// The statement of the clean report.
pub const CLEAN_STATEMENT: &[u8] = b"\
REPORT\tR1\t1\t2024-01-01\t2024-01-31\t31\n\
FILE\t1\t1\tOurs\t2\tWhole\n\
LEDGER\tGBABC2400001\tGB\tOnDemandStream\tGBP\t10\t0.5000000000\n\
PARTY\tGBABC2400001\tGB\tOnDemandStream\tGBP\tP1\t0.2500000000\n\
PARTY\tGBABC2400001\tGB\tOnDemandStream\tGBP\tP2\t0.1250000000\n\
UNCLAIMED\tGBABC2400001\tGB\tOnDemandStream\tGBP\t0.1250000000\n\
LEDGER\tGBABC2400002\tGB\tOnDemandStream\tGBP\t20\t1.0000000000\n\
UNCLAIMED\tGBABC2400002\tGB\tOnDemandStream\tGBP\t1.0000000000\n";

/// The first file of a report in two files.
pub const FIRST_OF_TWO: &[u8] = b"\
HEAD\tR1\t1\t2\t2024-01-01\t2024-01-31\tS\tL\n\
SY01\tS1\tGB\tOnDemandStream\tGBP\t10\t0.5\n\
AS01\t1\tGBABC2400001\tSong\tBand\n\
SU01\t1\tS1\t10\t0.5\n\
FOOT\t5\t1\t1\n";

/// The second file of that report.
pub const SECOND_OF_TWO: &[u8] = b"\
HEAD\tR1\t2\t2\t2024-01-01\t2024-01-31\tS\tL\n\
SY01\tS1\tGB\tOnDemandStream\tGBP\t7\t0.25\n\
AS01\t1\tGBABC2400001\tSong\tBand\n\
SU01\t1\tS1\t7\t0.25\n\
FOOT\t5\t1\t1\n";

/// The statement of both.
pub const TWO_STATEMENT: &[u8] = b"\
REPORT\tR1\t2\t2024-01-01\t2024-01-31\t31\n\
FILE\t1\t1\tOurs\t1\tWhole\n\
FILE\t2\t2\tOurs\t1\tWhole\n\
LEDGER\tGBABC2400001\tGB\tOnDemandStream\tGBP\t17\t0.7500000000\n\
UNCLAIMED\tGBABC2400001\tGB\tOnDemandStream\tGBP\t0.7500000000\n";

/// The first file of a report in three files.
pub const FIRST_OF_THREE: &[u8] = b"\
HEAD\tR1\t1\t3\t2024-01-01\t2024-01-31\tS\tL\n\
SY01\tS1\tGB\tOnDemandStream\tGBP\t10\t0.5\n\
AS01\t1\tGBABC2400001\tSong\tBand\n\
SU01\t1\tS1\t10\t0.5\n\
FOOT\t5\t1\t1\n";

/// The first six lines of the second file of that report.
pub const SECOND_CUT: &[u8] = b"\
HEAD\tR1\t2\t3\t2024-01-01\t2024-01-31\tS\tL\n\
SY01\tS1\tGB\tOnDemandStream\tGBP\t30\t1.5\n\
AS01\t1\tGBABC2400001\tSong\tBand\n\
MW01\t1\tW1\tSong\tP1|P2\t50|25\n\
SU01\t1\tS1\t10\t0.5\n\
AS01\t2\tGBABC2400002\tOther\tBand\n";

/// The third file of that report.
pub const THIRD_OF_THREE: &[u8] = b"\
HEAD\tR1\t3\t3\t2024-01-01\t2024-01-31\tS\tL\n\
SY01\tS1\tGB\tOnDemandStream\tGBP\t7\t0.25\n\
AS01\t1\tGBABC2400001\tSong\tBand\n\
SU01\t1\tS1\t7\t0.25\n\
FOOT\t5\t1\t1\n";

/// The statement of the three if a read of the second file fails after these lines.
pub const THREE_STATEMENT: &[u8] = b"\
REPORT\tR1\t3\t2024-01-01\t2024-01-31\t31\n\
FILE\t1\t1\tOurs\t1\tWhole\n\
FILE\t2\t2\tOurs\t1\tFault\t7\tRead\n\
FILE\t3\t3\tOurs\t1\tWhole\n\
LEDGER\tGBABC2400001\tGB\tOnDemandStream\tGBP\t27\t1.2500000000\n\
PARTY\tGBABC2400001\tGB\tOnDemandStream\tGBP\tP1\t0.2500000000\n\
PARTY\tGBABC2400001\tGB\tOnDemandStream\tGBP\tP2\t0.1250000000\n\
UNCLAIMED\tGBABC2400001\tGB\tOnDemandStream\tGBP\t0.8750000000\n";

/// The statement of the report in one file if its last byte is read by the last read of the limit.
pub const ALL_READS: &[u8] = b"\
REPORT\tR1\t1\t2024-01-01\t2024-01-31\t31\n\
FILE\t1\t1\tOurs\t2\tFault\t9\tReads\n\
LEDGER\tGBABC2400001\tGB\tOnDemandStream\tGBP\t10\t0.5000000000\n\
PARTY\tGBABC2400001\tGB\tOnDemandStream\tGBP\tP1\t0.2500000000\n\
PARTY\tGBABC2400001\tGB\tOnDemandStream\tGBP\tP2\t0.1250000000\n\
UNCLAIMED\tGBABC2400001\tGB\tOnDemandStream\tGBP\t0.1250000000\n\
LEDGER\tGBABC2400002\tGB\tOnDemandStream\tGBP\t20\t1.0000000000\n\
UNCLAIMED\tGBABC2400002\tGB\tOnDemandStream\tGBP\t1.0000000000\n";

/// The statement of a file with a comment at each of five reads.
pub const NO_REPORT_READS: &[u8] = b"\
NOREPORT\n\
FILE\t1\t-\tHeadless\t0\tFault\t6\tReads\n";

/// The statement of the first of two files and of a second one with a hundred blocks.
pub const HUNDRED_AND_ONE_STATEMENT: &[u8] = b"\
REPORT\tR1\t2\t2024-01-01\t2024-01-31\t31\n\
FILE\t1\t1\tOurs\t1\tWhole\n\
FILE\t2\t2\tOurs\t100\tWhole\n\
LEDGER\tGBABC2400001\tGB\tOnDemandStream\tGBP\t110\t1.5000000000\n\
UNCLAIMED\tGBABC2400001\tGB\tOnDemandStream\tGBP\t1.5000000000\n";

/// The statement of only the file with a hundred blocks.
pub const HUNDRED_STATEMENT: &[u8] = b"\
REPORT\tR1\t2\t2024-01-01\t2024-01-31\t31\n\
FILE\t1\t2\tOurs\t100\tWhole\n\
MISSING\t1\n\
LEDGER\tGBABC2400001\tGB\tOnDemandStream\tGBP\t100\t1.0000000000\n\
UNCLAIMED\tGBABC2400001\tGB\tOnDemandStream\tGBP\t1.0000000000\n";

/// The statement of a report in two files that are given in the other order.
pub const SWAPPED_STATEMENT: &[u8] = b"\
REPORT\tR1\t2\t2024-01-01\t2024-01-31\t31\n\
FILE\t1\t2\tOurs\t1\tWhole\n\
FILE\t2\t1\tOurs\t1\tWhole\n\
LEDGER\tGBABC2400001\tGB\tOnDemandStream\tGBP\t17\t0.7500000000\n\
UNCLAIMED\tGBABC2400001\tGB\tOnDemandStream\tGBP\t0.7500000000\n";

/// The statement of a report in three files whose second file is missing and whose first is given again.
pub const DOUBLED_STATEMENT: &[u8] = b"\
REPORT\tR1\t3\t2024-01-01\t2024-01-31\t31\n\
FILE\t1\t1\tOurs\t1\tWhole\n\
FILE\t2\t3\tOurs\t1\tWhole\n\
FILE\t3\t1\tDoubled\t1\tWhole\n\
MISSING\t2\n\
LEDGER\tGBABC2400001\tGB\tOnDemandStream\tGBP\t17\t0.7500000000\n\
UNCLAIMED\tGBABC2400001\tGB\tOnDemandStream\tGBP\t0.7500000000\n\
REJECT\t3\t1\t1\tDoubledFile\n";

/// The only file of another report.
pub const OTHER_REPORT: &[u8] = b"\
HEAD\tQ9\t1\t1\t2024-01-01\t2024-01-31\tS\tL\n\
SY01\tS1\tGB\tOnDemandStream\tGBP\t5\t0.1\n\
AS01\t1\tGBABC2400001\tSong\tBand\n\
SU01\t1\tS1\t5\t0.1\n\
FOOT\t5\t1\t1\n";

/// The statement of that file and of the clean report after it, which is foreign to it.
pub const FOREIGN_STATEMENT: &[u8] = b"\
REPORT\tQ9\t1\t2024-01-01\t2024-01-31\t31\n\
FILE\t1\t1\tOurs\t1\tWhole\n\
FILE\t2\t1\tForeign\t2\tWhole\n\
LEDGER\tGBABC2400001\tGB\tOnDemandStream\tGBP\t5\t0.1000000000\n\
UNCLAIMED\tGBABC2400001\tGB\tOnDemandStream\tGBP\t0.1000000000\n\
REJECT\t2\t1\t1\tForeignFile\n\
REJECT\t2\t2\t2\tForeignFile\n";

/// A file whose blocks are booked or rejected for each reason that a block alone can have, and whose summary does not agree.
pub const VERDICTS: &[u8] = b"\
HEAD\tR1\t1\t1\t2024-01-01\t2024-01-31\tS\tL\n\
SY01\tS1\tGB\tOnDemandStream\tGBP\t60\t6\n\
AS01\t1\tGBABC2400001\tSong\tBand\n\
SU01\t1\tS1\t10\t1\n\
AS01\t1\tGBABC2400002\tOther\tBand\n\
SU01\t1\tS1\t10\t1\n\
AS01\t3\t\tSong\tBand\n\
SU01\t3\tS1\t10\t1\n\
AS01\t4\tgbabc2400001\tSong\tBand\n\
SU01\t4\tS1\t10\t1\n\
AS01\t5\tGBABC2400003\tSong\tBand\n\
SU01\t5\tS9\t10\t1\n\
AS01\t6\tGBABC2400004\tSong\tBand\n\
MW01\t6\tW1\tSong\tP1|P2\t60|60\n\
SU01\t6\tS1\t10\t1\n\
FOOT\t16\t1\t6\n";

/// The statement of that file.
pub const VERDICTS_STATEMENT: &[u8] = b"\
REPORT\tR1\t1\t2024-01-01\t2024-01-31\t31\n\
FILE\t1\t1\tOurs\t6\tWhole\n\
SUMMARY\t1\tS1\t60\t50\t6.0000000000\t5.0000000000\n\
LEDGER\tGBABC2400001\tGB\tOnDemandStream\tGBP\t10\t1.0000000000\n\
UNCLAIMED\tGBABC2400001\tGB\tOnDemandStream\tGBP\t1.0000000000\n\
REJECT\t1\t2\t1\tDoubledBlock\n\
REJECT\t1\t3\t3\tNoIsrc\n\
REJECT\t1\t4\t4\tBadIsrc\n\
REJECT\t1\t5\t5\tUnknownSummary\n\
REJECT\t1\t6\t6\tShareOver\n";
