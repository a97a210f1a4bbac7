//! Reading a whole input.
ghost use Rattle.std.specs.Prelude.{◌≡◌, ◌+◌, ◌<◌, ◌≤◌, IfOk, IfSome, OnOk, Err, vec_len};
ghost use Rattle.std.specs.Io.KnownBytes.{Consumes, IsAtEnd};
ghost use Rattle.byte_streams.specs.Limits.{input_limit, read_limit};
ghost use Rattle.byte_streams.specs.Reading.{StopsPast, StopsWithin};
ghost use Rattle.byte_streams.specs.Tally.{NotBelow};

use super::ends::{Source, Step};
use std::alloc::Global;
use thiserror::Error;

/// The most bytes that one input may have.
pub const INPUT_LIMIT: usize = 4_194_304;

/// The most reads of one input, interrupted ones among them.
pub const READ_LIMIT: u64 = 8_388_608;

/// How many bytes a read asks for.
const READ_SIZE: usize = 8192;

/// Why an input could not be read whole.
#[derive(Clone, Copy, Debug, PartialEq, Eq, Error)]
pub enum ReadFault {
    /// A read failed, or as many reads as one input gets met no end.
    #[error("input cannot be read")]
    Read,
    /// More bytes came than an input may have.
    #[error("input is over {INPUT_LIMIT} bytes")]
    TooLong,
    /// No memory was left for the text.
    #[error("out of memory")]
    Memory,
}

/// All the bytes that the source has left. An interrupted read is tried again. Once the limit is passed, nothing more
/// is read.
pub fn read_all<R: Source>(alloc: Global, source: &mut R) -> Result<Vec<u8>, ReadFault>
    ensures ok { IfOk result (λ v. IfSome (R.left source.old) (λ bytes. v.items ≡ bytes)) }
    ensures taken { IfOk result (λ v. Consumes (R.left source.old) (R.left source.new) v.items) }
    ensures end { OnOk result (IsAtEnd (R.left source.new)) }
    ensures within { IfOk result (λ v. vec_len v ≤ input_limit) }

    ensures too_long { result ≡ Err ReadFault.TooLong → StopsPast R.left R.tally input_limit source.old source.new }
    ensures read { result ≡ Err ReadFault.Read → StopsWithin R.left R.tally input_limit read_limit source.old source.new }
    ensures failed { (R.tally source.old).failed < (R.tally source.new).failed → result ≡ Err ReadFault.Read }

    ensures calls { (R.tally source.new).calls ≤ (R.tally source.old).calls + read_limit }
    ensures counts { NotBelow (R.tally source.old) (R.tally source.new) }
{
    let mut text = Vec::new(alloc);
    let mut buffer = [0; READ_SIZE];
    for count in 0..READ_LIMIT {
        match source.pull(&mut buffer) {
            Step::Moved(n) => {
                if n == 0 {
                    return Ok(text);
                }
                if INPUT_LIMIT - text.len() < n {
                    return Err(ReadFault::TooLong);
                }
                if text.extend_from_slice(&buffer[..n]).is_err() {
                    return Err(ReadFault::Memory);
                }
            }
            Step::Again => {}
            Step::Failed => return Err(ReadFault::Read),
        }
    }
    Err(ReadFault::Read)
}
