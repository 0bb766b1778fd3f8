//! What goes out into a caller's memory whole, where there is room for it.

ghost use Rattle.std.specs.Prelude.{◌≡◌, ◌≤◌, length};
ghost use Rattle.sctp_c.specs.Out.{at_front};

/// Copies bytes to the front of a buffer; what stands behind them stays.
/// Precondition: there is room for them.
pub fn put_bytes(out: &mut [u8], bytes: &[u8])
    requires { length bytes.now ≤ length out.old }
    ensures { out.new ≡ at_front bytes.now out.old }
{
    out[..bytes.len()].copy_from_slice(bytes);
}

/// Copies numbers to the front of a buffer; what stands behind them stays.
/// Precondition: there is room for them.
pub fn put_numbers(out: &mut [u16], numbers: &[u16])
    requires { length numbers.now ≤ length out.old }
    ensures { out.new ≡ at_front numbers.now out.old }
{
    out[..numbers.len()].copy_from_slice(numbers);
}
