//! A buffer after a call that was refused memory.
ghost use Rattle.std.specs.Prelude.{◌≡◌, OnOk, OnErr, take};

use std::alloc::AllocError;

/// Where a put was refused memory, cuts the buffer to the length that it had before.
pub(crate) fn cut_if_refused(
    out: &mut Vec<u8>,
    length: usize,
    put: Result<(), AllocError>,
) -> Result<(), AllocError>
    ensures same { result ≡ put }
    ensures ok { OnOk result (out.new.items ≡ out.old.items) }
    ensures err { OnErr result (out.new.items ≡ take length out.old.items) }
{
    if put.is_err() {
        out.truncate(length);
    }
    put
}
