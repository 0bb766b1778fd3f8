//! Bytes as a field of a script: `-` for none, else hex text.

ghost use Rattle.std.specs.Prelude.{◌≡◌, ◌≢◌, ◌⊎◌, ℕ, List, IfOk, IfErr};
ghost use Rattle.std.specs.String.{string_bytes};
ghost use Rattle.linkscript.specs.Field.{IsField, field_of};
ghost use Rattle.hex.specs.declared.error.FromHexError.TheVariants as hex_errors;
ghost use Rattle.linkscript.specs.declared.field.FieldFault.TheVariants.{NotHex, OutOfMemory};

use bytes::Bytes;
use hex::FromHexError;
use std::alloc::{AllocError, Global};

/// Why a field is refused.
#[derive(Clone, Copy, Debug, PartialEq, Eq)]
pub enum FieldFault {
    /// The text is neither `-` nor the hex text of at least one byte.
    NotHex,
    OutOfMemory,
}

/// The field of some bytes, its digits in lower case. Refuses only for memory.
pub fn field_text(alloc: Global, bytes: &[u8]) -> Result<String, FieldFault>
    ensures text { IfOk result (λ t. string_bytes t ≡ field_of bytes.now) }
    ensures reads_back { IfOk result (λ t. IsField (string_bytes t) bytes.now) }
    ensures memory { IfErr result (λ e. e ≡ OutOfMemory) }
{
    match field_of_bytes(alloc, bytes) {
        Ok(text) => Ok(text),
        Err(_) => Err(FieldFault::OutOfMemory),
    }
}

fn field_of_bytes(alloc: Global, bytes: &[u8]) -> Result<String, AllocError>
    ensures { IfOk result (λ t. string_bytes t ≡ field_of bytes.now) }
{
    if bytes.is_empty() {
        return String::from_str(alloc, "-");
    }
    hex::encode(alloc, bytes)
}

/// The bytes of a field, its digits in either case. Refuses with `NotHex`, where the text is no field, and for memory.
pub fn field_bytes(alloc: Global, text: &str) -> Result<Bytes, FieldFault>
    ensures ok { IfOk result (λ b. IsField text.now b) }
    ensures refused { IfErr result (λ e. (e ≡ OutOfMemory)
        ⊎ ((e ≡ NotHex) × ((b : List ℕ) → IsField text.now b → ⊥))) }
{
    if text == "-" {
        return Ok(Bytes::new());
    }
    let bytes = match hex::decode(alloc, text) {
        Ok(bytes) => bytes,
        Err(e) => return Err(fault_of(e)),
    };
    if bytes.is_empty() {
        return Err(FieldFault::NotHex);
    }
    match Bytes::from_vec(bytes) {
        Ok(bytes) => Ok(bytes),
        Err(_) => Err(FieldFault::OutOfMemory),
    }
}

fn fault_of(e: FromHexError) -> FieldFault
    ensures { ((result ≡ OutOfMemory) × (e ≡ hex_errors.OutOfMemory))
        ⊎ ((result ≡ NotHex) × (e ≢ hex_errors.OutOfMemory)) }
{
    match e {
        FromHexError::OutOfMemory => FieldFault::OutOfMemory,
        _ => FieldFault::NotHex,
    }
}
