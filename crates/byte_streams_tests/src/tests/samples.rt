//! Samples that the tests share.

use byte_streams::Tally;

pub(super) const TEXT: &[u8] = b"two\nlines\n";

pub(super) const NO_CALLS: Tally = Tally {
    calls: 0,
    failed: 0,
    empty: 0,
    again: 0,
    again_in_a_row: 0,
};
