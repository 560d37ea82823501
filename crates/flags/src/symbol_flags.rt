//! The flag words of a symbol, after the Rust's symbol_flags.rs; bits that no constant names are kept.
ghost use Rattle.std.specs.Prelude.{⊤, ◌≡◌, ◌/◌, ◌%◌, [], ◌∷◌, codes};
ghost use Rattle.le.specs.Le.{has, le2, le4, bytes2, bytes4};
ghost use Rattle.flags.specs.Flags.{symbol_flags_of, symbol2_flags_of};

use crate::bytes_of_u32;
use bitflags::{Flag, Flags, bitflag_items};
use refusal::{LIMIT, Refusal};

/// Flags that describe the memory and access properties of a symbol.
#[derive(Clone, Copy, Debug, PartialEq, Eq)]
pub struct AdsSymbolFlags(pub u16);

bitflag_items! {
    impl AdsSymbolFlags: u16 {
        /// The symbol's value is persistent and retained across runtime restarts.
        const PERSISTENT = 0x0001;
        /// The symbol represents a single bit value (its byte size is 0).
        const BIT_VALUE = 0x0002;
        /// The symbol is a reference to another variable or memory location.
        const REFERENCE_TO = 0x0004;
        /// The symbol metadata includes a 16-byte Type GUID.
        const TYPE_GUID = 0x0008;
        /// The symbol is a TcCOM interface pointer.
        const TCOM_INTERFACE_PTR = 0x0010;
        /// The symbol is read-only and cannot be written to by an ADS client.
        const READ_ONLY = 0x0020;
        /// The symbol provides interface method access.
        const ITF_METHOD_ACCESS = 0x0040;
        /// The symbol requires method dereferencing.
        const METHOD_DEREF = 0x0080;
        /// A 4-bit mask (bits 8-11) indicating the context of the symbol.
        const CONTEXT_MASK = 0x0F00;
        /// The symbol metadata includes key-value attributes/pragmas.
        const ATTRIBUTES = 0x1000;
        /// The symbol is statically allocated.
        const STATIC = 0x2000;
        /// Persistent data will not be restored after a cold reset.
        const INIT_ON_RESET = 0x4000;
        /// The symbol metadata includes a 4-byte extended flags section ([`AdsSymbol2Flags`]).
        const EXTENDED_FLAGS = 0x8000;
    }
}

impl Flags for AdsSymbolFlags {
    type Bits = u16;

    ghost exact = { ⊤ };

    ghost table = { (codes "PERSISTENT", 0x0001) ∷ (codes "BIT_VALUE", 0x0002) ∷ (codes "REFERENCE_TO", 0x0004) ∷ (codes "TYPE_GUID", 0x0008) ∷ (codes "TCOM_INTERFACE_PTR", 0x0010) ∷ (codes "READ_ONLY", 0x0020) ∷ (codes "ITF_METHOD_ACCESS", 0x0040) ∷ (codes "METHOD_DEREF", 0x0080) ∷ (codes "CONTEXT_MASK", 0x0F00) ∷ (codes "ATTRIBUTES", 0x1000) ∷ (codes "STATIC", 0x2000) ∷ (codes "INIT_ON_RESET", 0x4000) ∷ (codes "EXTENDED_FLAGS", 0x8000) ∷ [] };

    ghost set_of = { λ f. f.0 };

    fn flags<'a>() -> &'a [Flag<AdsSymbolFlags>] {
        AdsSymbolFlags::FLAGS
    }

    fn bits(&self) -> u16 {
        self.0
    }

    fn from_bits_retain(bits: u16) -> AdsSymbolFlags {
        AdsSymbolFlags(bits)
    }
}

impl AdsSymbolFlags {
    /// Wire size in bytes.
    pub const LENGTH: usize = 2;

    /// The flags of a raw word: every bit is kept.
    pub fn new(raw: u16) -> Self
        ensures { result.0 ≡ raw }
    {
        Self(raw)
    }

    /// The raw word.
    pub fn as_raw(self) -> u16
        ensures { result ≡ self.0 }
    {
        self.0
    }

    /// The flags in their bytes, low byte first: every bit is kept.
    pub fn from_bytes(bytes: [u8; Self::LENGTH]) -> Self
        ensures { result.0 ≡ le2 bytes 0 }
    {
        Self(le::u16_at(&bytes, 0))
    }

    /// The two bytes of the flags, low byte first.
    pub fn to_bytes(self) -> [u8; Self::LENGTH]
        ensures { result ≡ bytes2 self.0 }
    {
        let a = (self.0 % 256) as u8;
        let b = (self.0 / 256 % 256) as u8;
        [a, b]
    }

    /// Reads the flags from data that has to be of their length: refusal 5 above the limit, then 1 (docs/FORMAT.md, "Direct reading").
    pub fn try_from_slice(value: &[u8]) -> Result<Self, Refusal>
        ensures { result ≡ symbol_flags_of value.now }
    {
        let length = value.len();
        if length > LIMIT {
            return Err(Refusal::TooLarge { length });
        }
        if length != Self::LENGTH {
            return Err(Refusal::UnexpectedLength {
                needed: Self::LENGTH,
                present: length,
            });
        }
        Ok(Self(le::u16_at(value, 0)))
    }

    /// Returns `true` if the symbol's value is persistent.
    pub fn is_persistent(self) -> bool
        ensures { result ≡ has self.0 0x0001 }
    {
        self.contains(Self::PERSISTENT)
    }

    /// Returns `true` if the symbol represents a bit value (byte size is 0).
    pub fn is_bit_value(self) -> bool
        ensures { result ≡ has self.0 0x0002 }
    {
        self.contains(Self::BIT_VALUE)
    }

    /// Returns `true` if the symbol is a reference to another variable.
    pub fn is_reference_to(self) -> bool
        ensures { result ≡ has self.0 0x0004 }
    {
        self.contains(Self::REFERENCE_TO)
    }

    /// Returns `true` if the symbol metadata contains a Type GUID.
    pub fn has_type_guid(self) -> bool
        ensures { result ≡ has self.0 0x0008 }
    {
        self.contains(Self::TYPE_GUID)
    }

    /// Returns `true` if the symbol is a TcCOM interface pointer.
    pub fn is_tcom_interface_ptr(self) -> bool
        ensures { result ≡ has self.0 0x0010 }
    {
        self.contains(Self::TCOM_INTERFACE_PTR)
    }

    /// Returns `true` if the symbol is strictly read-only.
    pub fn is_read_only(self) -> bool
        ensures { result ≡ has self.0 0x0020 }
    {
        self.contains(Self::READ_ONLY)
    }

    /// Returns `true` if the symbol provides interface method access.
    pub fn is_itf_method_access(self) -> bool
        ensures { result ≡ has self.0 0x0040 }
    {
        self.contains(Self::ITF_METHOD_ACCESS)
    }

    /// Returns `true` if the symbol requires method dereferencing.
    pub fn is_method_deref(self) -> bool
        ensures { result ≡ has self.0 0x0080 }
    {
        self.contains(Self::METHOD_DEREF)
    }

    /// Returns `true` if the symbol metadata contains attributes/pragmas.
    pub fn has_attributes(self) -> bool
        ensures { result ≡ has self.0 0x1000 }
    {
        self.contains(Self::ATTRIBUTES)
    }

    /// Returns `true` if the symbol is statically allocated.
    pub fn is_static(self) -> bool
        ensures { result ≡ has self.0 0x2000 }
    {
        self.contains(Self::STATIC)
    }

    /// Returns `true` if persistent data will not be restored on a cold reset.
    pub fn is_init_on_reset(self) -> bool
        ensures { result ≡ has self.0 0x4000 }
    {
        self.contains(Self::INIT_ON_RESET)
    }

    /// Returns `true` if the symbol metadata includes extended flags.
    pub fn has_extended_flags(self) -> bool
        ensures { result ≡ has self.0 0x8000 }
    {
        self.contains(Self::EXTENDED_FLAGS)
    }

    /// The context of the symbol, the four bits from 8 on.
    pub fn context_mask(self) -> u8
        ensures { result ≡ self.0 / 256 % 16 }
    {
        (self.0 / 256 % 16) as u8
    }
}

/// Extended flags of a symbol.
#[derive(Clone, Copy, Debug, PartialEq, Eq)]
pub struct AdsSymbol2Flags(pub u32);

bitflag_items! {
    impl AdsSymbol2Flags: u32 {
        /// A PLC pointer type that requires derelocation/relocation while equalizing redundancy projects.
        const PLC_POINTER_TYPE = 0x00000001;
        /// Ignore this symbol while equalizing redundancy projects.
        const REDUNDANCY_IGNORE = 0x00000002;
        /// The symbol contains refactoring information.
        const REFACTOR_INFO = 0x00000004;
        /// A PLC pointer or reference that the runtime attempts to resolve after an online change.
        const ONLINE_CHANGE_PTR_REF_TYPE = 0x00000008;
        /// The symbol is a Variant Type.
        const VARIANT_TYPE = 0x00000010;
    }
}

impl Flags for AdsSymbol2Flags {
    type Bits = u32;

    ghost exact = { ⊤ };

    ghost table = { (codes "PLC_POINTER_TYPE", 0x00000001) ∷ (codes "REDUNDANCY_IGNORE", 0x00000002) ∷ (codes "REFACTOR_INFO", 0x00000004) ∷ (codes "ONLINE_CHANGE_PTR_REF_TYPE", 0x00000008) ∷ (codes "VARIANT_TYPE", 0x00000010) ∷ [] };

    ghost set_of = { λ f. f.0 };

    fn flags<'a>() -> &'a [Flag<AdsSymbol2Flags>] {
        AdsSymbol2Flags::FLAGS
    }

    fn bits(&self) -> u32 {
        self.0
    }

    fn from_bits_retain(bits: u32) -> AdsSymbol2Flags {
        AdsSymbol2Flags(bits)
    }
}

impl AdsSymbol2Flags {
    /// Wire size in bytes.
    pub const LENGTH: usize = 4;

    /// The flags of a raw word: every bit is kept.
    pub fn new(raw: u32) -> Self
        ensures { result.0 ≡ raw }
    {
        Self(raw)
    }

    /// The raw word.
    pub fn as_raw(self) -> u32
        ensures { result ≡ self.0 }
    {
        self.0
    }

    /// The flags in their bytes, low byte first: every bit is kept.
    pub fn from_bytes(bytes: [u8; Self::LENGTH]) -> Self
        ensures { result.0 ≡ le4 bytes 0 }
    {
        Self(le::u32_at(&bytes, 0))
    }

    /// The four bytes of the flags, low byte first.
    pub fn to_bytes(self) -> [u8; Self::LENGTH]
        ensures { result ≡ bytes4 self.0 }
    {
        bytes_of_u32(self.0)
    }

    /// Reads the flags from data that has to be of their length: refusal 5 above the limit, then 1 (docs/FORMAT.md, "Direct reading").
    pub fn try_from_slice(value: &[u8]) -> Result<Self, Refusal>
        ensures { result ≡ symbol2_flags_of value.now }
    {
        let length = value.len();
        if length > LIMIT {
            return Err(Refusal::TooLarge { length });
        }
        if length != Self::LENGTH {
            return Err(Refusal::UnexpectedLength {
                needed: Self::LENGTH,
                present: length,
            });
        }
        Ok(Self(le::u32_at(value, 0)))
    }

    /// Returns `true` if the symbol is a PLC pointer type.
    pub fn is_plc_pointer_type(self) -> bool
        ensures { result ≡ has self.0 0x00000001 }
    {
        self.contains(Self::PLC_POINTER_TYPE)
    }

    /// Returns `true` if the symbol is ignored during redundancy project equalization.
    pub fn is_redundancy_ignore(self) -> bool
        ensures { result ≡ has self.0 0x00000002 }
    {
        self.contains(Self::REDUNDANCY_IGNORE)
    }

    /// Returns `true` if the symbol metadata contains refactoring history.
    pub fn has_refactor_info(self) -> bool
        ensures { result ≡ has self.0 0x00000004 }
    {
        self.contains(Self::REFACTOR_INFO)
    }

    /// Returns `true` if the pointer/reference is resolved after an online change.
    pub fn is_online_change_ptr_ref_type(self) -> bool
        ensures { result ≡ has self.0 0x00000008 }
    {
        self.contains(Self::ONLINE_CHANGE_PTR_REF_TYPE)
    }

    /// Returns `true` if the symbol is a Variant Type.
    pub fn is_variant_type(self) -> bool
        ensures { result ≡ has self.0 0x00000010 }
    {
        self.contains(Self::VARIANT_TYPE)
    }
}
