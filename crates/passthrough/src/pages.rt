ghost use Rattle.std.specs.Prelude.{◌≡◌, ◌<◌};
ghost use Rattle.passthrough.specs.Fields.{active_field, append_field, block_exponent, can_save_features};
ghost use Rattle.passthrough.specs.Fields.{extension_units, format_index, has_active_excursions};
ghost use Rattle.passthrough.specs.Fields.{has_variable_capacity, has_write_cache, is_write_protected, metadata_size};
ghost use Rattle.passthrough.specs.Fields.{namespace_size, open_field, protection_type};
ghost use Rattle.passthrough.specs.Fields.{transfer_field, unwritten_reads, zone_size};

use crate::number::{u16_at, u32_at, u64_at};

/// What a drive answers to Identify.
#[derive(Clone, Copy)]
pub struct Pages {
    /// Identify Controller (CNS 01h).
    pub controller: [u8; 4096],
    /// Identify Namespace (CNS 00h).
    pub namespace: [u8; 4096],
    /// Identify Namespace of the Zoned Namespace Command Set (CNS 05h, CSI 02h).
    pub zoned_namespace: [u8; 4096],
    /// Identify Controller of the Zoned Namespace Command Set (CNS 06h, CSI 02h).
    pub zoned_controller: [u8; 4096],
    /// Whether the drive identifies the namespace by the Zoned Namespace Command Set. If not, nothing else is looked
    /// at.
    pub is_zoned: bool,
}

// Identify Controller.
impl Pages {
    /// MDTS: what one command moves at most, as a power of two of memory pages; 0 is no limit.
    pub(crate) fn transfer_field(&self) -> u8
        ensures { result ≡ transfer_field self.now }
    {
        self.controller[77]
    }

    /// Whether the drive can save features, and says by Get Features which: bit 4 of ONCS.
    pub fn can_save_features(&self) -> bool
        ensures { result ≡ can_save_features self.now }
    {
        (self.controller[520] >> 4) & 1 == 1
    }

    /// Whether the drive has a volatile write cache, on or off: bit 0 of VWC.
    pub fn has_write_cache(&self) -> bool
        ensures { result ≡ has_write_cache self.now }
    {
        self.controller[525] & 1 == 1
    }
}

// Identify Namespace.
impl Pages {
    /// NSZE: the blocks of the namespace.
    pub(crate) fn namespace_size(&self) -> u64
        ensures { result ≡ namespace_size self.now }
    {
        u64_at(&self.namespace, 0)
    }

    /// The number of the LBA format of the namespace: bits 6:5 and 3:0 of FLBAS.
    pub(crate) fn format_index(&self) -> usize
        ensures value { result ≡ format_index self.now }
        ensures below { result < 64 }
    {
        let format = self.namespace[26];
        usize::from(format & 15) + 16 * usize::from((format >> 5) & 3)
    }

    /// The type of the protection information: bits 2:0 of DPS; 0 is none.
    pub(crate) fn protection_type(&self) -> u8
        ensures { result ≡ protection_type self.now }
    {
        self.namespace[29] & 7
    }

    /// What a block reads as that is not written: bits 2:0 of DLFEAT; 1 is zeros.
    pub(crate) fn unwritten_reads(&self) -> u8
        ensures { result ≡ unwritten_reads self.now }
    {
        self.namespace[33] & 7
    }

    /// Whether the namespace is write protected, so that no host can write to it now: bit 0 of NSATTR.
    pub fn is_write_protected(&self) -> bool
        ensures { result ≡ is_write_protected self.now }
    {
        self.namespace[99] & 1 == 1
    }

    /// MS: the bytes of metadata of a block.
    pub(crate) fn metadata_size(&self) -> u16
        ensures { result ≡ metadata_size self.now }
    {
        u16_at(&self.namespace, 128 + 4 * self.format_index())
    }

    /// LBADS: the bytes of a block, as a power of two.
    pub(crate) fn block_exponent(&self) -> u8
        ensures { result ≡ block_exponent self.now }
    {
        self.namespace[130 + 4 * self.format_index()]
    }
}

// Identify Namespace of the Zoned Namespace Command Set.
impl Pages {
    /// Whether the capacity of a zone may vary: bit 0 of ZOC.
    pub(crate) fn has_variable_capacity(&self) -> bool
        ensures { result ≡ has_variable_capacity self.now }
    {
        self.zoned_namespace[0] & 1 == 1
    }

    /// Whether the drive may make an active zone Full by itself: bit 1 of ZOC.
    pub(crate) fn has_active_excursions(&self) -> bool
        ensures { result ≡ has_active_excursions self.now }
    {
        (self.zoned_namespace[0] >> 1) & 1 == 1
    }

    /// MAR: one less than the zones that may be active; all ones is no limit.
    pub(crate) fn active_field(&self) -> u32
        ensures { result ≡ active_field self.now }
    {
        u32_at(&self.zoned_namespace, 4)
    }

    /// MOR: one less than the zones that may be open; all ones is no limit.
    pub(crate) fn open_field(&self) -> u32
        ensures { result ≡ open_field self.now }
    {
        u32_at(&self.zoned_namespace, 8)
    }

    /// ZSZE: the size of a zone, in blocks.
    pub(crate) fn zone_size(&self) -> u64
        ensures { result ≡ zone_size self.now }
    {
        u64_at(&self.zoned_namespace, 2816 + 16 * self.format_index())
    }

    /// ZDES: the size of a zone descriptor's extension, in 64 bytes.
    pub(crate) fn extension_units(&self) -> u8
        ensures { result ≡ extension_units self.now }
    {
        self.zoned_namespace[2824 + 16 * self.format_index()]
    }
}

// Identify Controller of the Zoned Namespace Command Set.
impl Pages {
    /// ZASL: what one Append moves at most, as MDTS says it; 0 adds no limit to MDTS.
    pub(crate) fn append_field(&self) -> u8
        ensures { result ≡ append_field self.now }
    {
        self.zoned_controller[0]
    }
}
