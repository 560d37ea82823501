//! The flag word of a field, after the Rust's type_flags.rs; bits that no constant names are kept.
ghost use Rattle.std.specs.Prelude.{⊤, ◌≡◌, [], ◌∷◌, codes};
ghost use Rattle.le.specs.Le.{has, le4, bytes4};
ghost use Rattle.flags.specs.Flags.{type_flags_of};

use crate::bytes_of_u32;
use bitflags::{Flag, Flags, bitflag_items};
use refusal::{LIMIT, Refusal};

/// Flags of a field or a data type.
#[derive(Clone, Copy, Debug, PartialEq, Eq)]
pub struct AdsTypeFlags(pub u32);

bitflag_items! {
    impl AdsTypeFlags: u32 {
        /// Entry is a root data type.
        const DATA_TYPE = 0x00000001;
        /// Entry is a data item (struct field / sub-item).
        const DATA_ITEM = 0x00000002;
        /// Entry contains a reference to another type.
        const REFERENCE_TO = 0x00000004;
        /// Entry is a method dereference.
        const METHOD_DEREF = 0x00000008;
        /// Entry uses oversampling.
        const OVERSAMPLE = 0x00000010;
        /// Size and offset are in bits rather than bytes.
        const BIT_VALUES = 0x00000020;
        /// Entry contains a reference to a function block property.
        const PROP_ITEM = 0x00000040;
        /// A 16-byte GUID follows the sub-items in the wire format.
        /// Confirmed present on every observed entry.
        const TYPE_GUID = 0x00000080;
        /// Entry or one of its fields is persistent across power cycles.
        const PERSISTENT = 0x00000100;
        /// A copy mask follows in the wire format (legacy).
        const COPY_MASK = 0x00000200;
        /// Entry contains or is a TcCOM interface pointer.
        const TCOM_INTERFACE_PTR = 0x00000400;
        /// An RPC method section follows in the wire format.
        const METHOD_INFOS = 0x00000800;
        /// An attribute section follows in the wire format.
        const ATTRIBUTES = 0x00001000;
        /// An enum info section follows in the wire format.
        const ENUM_INFOS = 0x00002000;
        /// Entry is aligned.
        const ALIGNED = 0x00010000;
        /// Data item is static — do not use offsets when accessing.
        const STATIC = 0x00020000;
        /// Entry has software protection levels.
        const SOFTWARE_PROTECTION_LEVELS = 0x00040000;
        /// Persistent data is not restored after a cold reset.
        const IGNORE_PERSIST = 0x00080000;
        /// Any-size array.
        const ANY_SIZE_ARRAY = 0x00100000;
        /// Entry is used for persistent variables.
        const PERSISTENT_DATATYPE = 0x00200000;
        /// Persistent data is not restored after reset (cold).
        const INIT_ON_RESET = 0x00400000;
        /// Entry contains or is a PLC pointer type.
        const PLC_POINTER_TYPE = 0x00800000;
        /// Refactoring information section follows in the wire format.
        const REFACTOR_INFO = 0x01000000;
        /// Sub-items are hidden and will not be evaluated.
        const HIDE_SUB_ITEMS = 0x02000000;
        /// Type description is incomplete.
        const INCOMPLETE = 0x04000000;
        /// Entry contains or is an online change pointer reference.
        const CONTAINS_ONLINE_CHANGE_PTR_REF = 0x08000000;
        /// Entry contains or is a variant / deref type. A deref section follows.
        const VARIANT = 0x10000000;
        /// Extended enum info section follows in the wire format.
        const EXTENDED_ENUM_INFOS = 0x20000000;
        /// Extended flags `u32` follows in the wire format.
        const EXTENDED_FLAGS = 0x80000000;
    }
}

impl Flags for AdsTypeFlags {
    type Bits = u32;

    ghost exact = { ⊤ };

    ghost table = { (codes "DATA_TYPE", 0x00000001) ∷ (codes "DATA_ITEM", 0x00000002) ∷ (codes "REFERENCE_TO", 0x00000004) ∷ (codes "METHOD_DEREF", 0x00000008) ∷ (codes "OVERSAMPLE", 0x00000010) ∷ (codes "BIT_VALUES", 0x00000020) ∷ (codes "PROP_ITEM", 0x00000040) ∷ (codes "TYPE_GUID", 0x00000080) ∷ (codes "PERSISTENT", 0x00000100) ∷ (codes "COPY_MASK", 0x00000200) ∷ (codes "TCOM_INTERFACE_PTR", 0x00000400) ∷ (codes "METHOD_INFOS", 0x00000800) ∷ (codes "ATTRIBUTES", 0x00001000) ∷ (codes "ENUM_INFOS", 0x00002000) ∷ (codes "ALIGNED", 0x00010000) ∷ (codes "STATIC", 0x00020000) ∷ (codes "SOFTWARE_PROTECTION_LEVELS", 0x00040000) ∷ (codes "IGNORE_PERSIST", 0x00080000) ∷ (codes "ANY_SIZE_ARRAY", 0x00100000) ∷ (codes "PERSISTENT_DATATYPE", 0x00200000) ∷ (codes "INIT_ON_RESET", 0x00400000) ∷ (codes "PLC_POINTER_TYPE", 0x00800000) ∷ (codes "REFACTOR_INFO", 0x01000000) ∷ (codes "HIDE_SUB_ITEMS", 0x02000000) ∷ (codes "INCOMPLETE", 0x04000000) ∷ (codes "CONTAINS_ONLINE_CHANGE_PTR_REF", 0x08000000) ∷ (codes "VARIANT", 0x10000000) ∷ (codes "EXTENDED_ENUM_INFOS", 0x20000000) ∷ (codes "EXTENDED_FLAGS", 0x80000000) ∷ [] };

    ghost set_of = { λ f. f.0 };

    fn flags<'a>() -> &'a [Flag<AdsTypeFlags>] {
        AdsTypeFlags::FLAGS
    }

    fn bits(&self) -> u32 {
        self.0
    }

    fn from_bits_retain(bits: u32) -> AdsTypeFlags {
        AdsTypeFlags(bits)
    }
}

impl AdsTypeFlags {
    /// Wire size in bytes.
    pub const LENGTH: usize = 4;

    /// The flags of a raw word: every bit is kept.
    pub fn new(raw: u32) -> Self
        ensures { result.0 ≡ raw }
    {
        Self(raw)
    }

    /// The raw word.
    pub fn as_raw(self) -> u32
        ensures { result ≡ self.0 }
    {
        self.0
    }

    /// The flags in their bytes, low byte first: every bit is kept.
    pub fn from_bytes(bytes: [u8; Self::LENGTH]) -> Self
        ensures { result.0 ≡ le4 bytes 0 }
    {
        Self(le::u32_at(&bytes, 0))
    }

    /// The four bytes of the flags, low byte first.
    pub fn to_bytes(self) -> [u8; Self::LENGTH]
        ensures { result ≡ bytes4 self.0 }
    {
        bytes_of_u32(self.0)
    }

    /// Reads the flags from data that has to be of their length: refusal 5 above the limit, then 1 (docs/FORMAT.md, "Direct reading").
    pub fn try_from_slice(value: &[u8]) -> Result<Self, Refusal>
        ensures { result ≡ type_flags_of value.now }
    {
        let length = value.len();
        if length > LIMIT {
            return Err(Refusal::TooLarge { length });
        }
        if length != Self::LENGTH {
            return Err(Refusal::UnexpectedLength {
                needed: Self::LENGTH,
                present: length,
            });
        }
        Ok(Self(le::u32_at(value, 0)))
    }

    /// Returns `true` if the [`DATA_TYPE`](Self::DATA_TYPE) flag is set.
    pub fn is_data_type(self) -> bool
        ensures { result ≡ has self.0 0x00000001 }
    {
        self.contains(Self::DATA_TYPE)
    }

    /// Returns `true` if the [`DATA_ITEM`](Self::DATA_ITEM) flag is set.
    pub fn is_data_item(self) -> bool
        ensures { result ≡ has self.0 0x00000002 }
    {
        self.contains(Self::DATA_ITEM)
    }

    /// Returns `true` if the [`REFERENCE_TO`](Self::REFERENCE_TO) flag is set.
    pub fn is_reference_to(self) -> bool
        ensures { result ≡ has self.0 0x00000004 }
    {
        self.contains(Self::REFERENCE_TO)
    }

    /// Returns `true` if the [`BIT_VALUES`](Self::BIT_VALUES) flag is set.
    /// When true, `size` and `offset` are in bits, not bytes.
    pub fn is_bit_values(self) -> bool
        ensures { result ≡ has self.0 0x00000020 }
    {
        self.contains(Self::BIT_VALUES)
    }

    /// Returns `true` if the [`PROP_ITEM`](Self::PROP_ITEM) flag is set.
    pub fn is_prop_item(self) -> bool
        ensures { result ≡ has self.0 0x00000040 }
    {
        self.contains(Self::PROP_ITEM)
    }

    /// Returns `true` if a 16-byte GUID section is present in the wire format.
    pub fn has_type_guid(self) -> bool
        ensures { result ≡ has self.0 0x00000080 }
    {
        self.contains(Self::TYPE_GUID)
    }

    /// Returns `true` if the [`PERSISTENT`](Self::PERSISTENT) flag is set.
    pub fn is_persistent(self) -> bool
        ensures { result ≡ has self.0 0x00000100 }
    {
        self.contains(Self::PERSISTENT)
    }

    /// Returns `true` if a copy mask section is present (legacy).
    pub fn has_copy_mask(self) -> bool
        ensures { result ≡ has self.0 0x00000200 }
    {
        self.contains(Self::COPY_MASK)
    }

    /// Returns `true` if an RPC method section is present in the wire format.
    pub fn has_method_infos(self) -> bool
        ensures { result ≡ has self.0 0x00000800 }
    {
        self.contains(Self::METHOD_INFOS)
    }

    /// Returns `true` if an attribute section is present in the wire format.
    pub fn has_attributes(self) -> bool
        ensures { result ≡ has self.0 0x00001000 }
    {
        self.contains(Self::ATTRIBUTES)
    }

    /// Returns `true` if an enum info section is present in the wire format.
    pub fn has_enum_infos(self) -> bool
        ensures { result ≡ has self.0 0x00002000 }
    {
        self.contains(Self::ENUM_INFOS)
    }

    /// Returns `true` if the [`STATIC`](Self::STATIC) flag is set.
    pub fn is_static(self) -> bool
        ensures { result ≡ has self.0 0x00020000 }
    {
        self.contains(Self::STATIC)
    }

    /// Returns `true` if the [`ANY_SIZE_ARRAY`](Self::ANY_SIZE_ARRAY) flag is set.
    pub fn is_any_size_array(self) -> bool
        ensures { result ≡ has self.0 0x00100000 }
    {
        self.contains(Self::ANY_SIZE_ARRAY)
    }

    /// Returns `true` if the [`PLC_POINTER_TYPE`](Self::PLC_POINTER_TYPE) flag is set.
    pub fn is_plc_pointer_type(self) -> bool
        ensures { result ≡ has self.0 0x00800000 }
    {
        self.contains(Self::PLC_POINTER_TYPE)
    }

    /// Returns `true` if a refactor info section is present in the wire format.
    pub fn has_refactor_info(self) -> bool
        ensures { result ≡ has self.0 0x01000000 }
    {
        self.contains(Self::REFACTOR_INFO)
    }

    /// Returns `true` if sub-items are hidden.
    pub fn hide_sub_items(self) -> bool
        ensures { result ≡ has self.0 0x02000000 }
    {
        self.contains(Self::HIDE_SUB_ITEMS)
    }

    /// Returns `true` if a deref section is present in the wire format.
    pub fn is_variant(self) -> bool
        ensures { result ≡ has self.0 0x10000000 }
    {
        self.contains(Self::VARIANT)
    }

    /// Returns `true` if an extended enum info section is present in the wire format.
    pub fn has_extended_enum_infos(self) -> bool
        ensures { result ≡ has self.0 0x20000000 }
    {
        self.contains(Self::EXTENDED_ENUM_INFOS)
    }

    /// Returns `true` if an extended flags `u32` is present in the wire format.
    pub fn has_extended_flags(self) -> bool
        ensures { result ≡ has self.0 0x80000000 }
    {
        self.contains(Self::EXTENDED_FLAGS)
    }

    /// Returns `true` if a software protection levels section is present.
    pub fn has_software_protection_levels(self) -> bool
        ensures { result ≡ has self.0 0x00040000 }
    {
        self.contains(Self::SOFTWARE_PROTECTION_LEVELS)
    }
}
