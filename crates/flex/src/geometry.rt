ghost use Rattle.std.specs.Prelude.{◌≡◌};
ghost use Rattle.flex.specs.Geometries.{size_of, vector_at, address_at, Numbered};

use super::vector::Vector;

/// How many cylinders a unit has, heads a cylinder, and sectors a track.
#[derive(Clone, Copy, PartialEq, Eq, Debug)]
pub struct Geometry {
    pub cylinders: u16,
    pub heads: u8,
    pub sectors: u8,
}

impl Geometry {
    /// The number of blocks.
    pub fn size(self) -> u32
        ensures { result ≡ size_of self }
    {
        u32::from(self.cylinders) * u32::from(self.heads) * u32::from(self.sectors)
    }

    /// The vector of an address, or none where the address is not below the size.
    pub fn vector_at(self, address: u32) -> Option<Vector>
        ensures is { result ≡ vector_at self address }
        ensures law { Numbered self }
    {
        if address >= self.size() {
            return None;
        }
        let heads = u32::from(self.heads);
        let sectors = u32::from(self.sectors);
        Some(Vector {
            cylinder: address / sectors / heads,
            head: (address / sectors % heads) as u8,
            sector: (address % sectors) as u16,
        })
    }

    /// The address of a vector, or none where the cylinder, the head or the sector is not below its count.
    pub fn address_at(self, vector: Vector) -> Option<u32>
        ensures is { result ≡ address_at self vector }
        ensures law { Numbered self }
    {
        let cylinders = u32::from(self.cylinders);
        let heads = u32::from(self.heads);
        let sectors = u32::from(self.sectors);
        let head = u32::from(vector.head);
        let sector = u32::from(vector.sector);
        if vector.cylinder >= cylinders || head >= heads || sector >= sectors {
            return None;
        }
        Some((vector.cylinder * heads + head) * sectors + sector)
    }
}
