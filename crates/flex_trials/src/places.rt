use crate::small::unit;
use flex::vector::Vector;

fn vector(cylinder: u32, head: u8, sector: u16) -> Vector {
    Vector {
        cylinder,
        head,
        sector,
    }
}

#[test]
fn every_address_has_a_vector_and_every_vector_an_address(rt: HostRuntime) {
    let geometry = unit(0, 4, 2, 5).geometry;
    let mut address = 0u32;
    for cylinder in 0..4u32 {
        for head in 0..2u8 {
            for sector in 0..5u16 {
                let place = vector(cylinder, head, sector);
                assert_eq!(rt; geometry.address_at(place), Some(address));
                assert_eq!(rt; geometry.vector_at(address), Some(place));
                address = address.wrapping_add(1);
            }
        }
    }
    assert_eq!(rt; geometry.size(), address);
    assert_eq!(rt; geometry.vector_at(address), None);
}

#[test]
fn no_vector_past_an_edge(rt: HostRuntime) {
    let geometry = unit(0, 4, 2, 5).geometry;
    let places = [
        vector(4, 0, 0),
        vector(0, 2, 0),
        vector(0, 0, 5),
        vector(4, 2, 5),
    ];
    for place in places {
        assert_eq!(rt; geometry.address_at(place), None);
    }
    let controller = unit(0, 0, 0, 0).geometry;
    assert_eq!(rt; controller.size(), 0);
    assert_eq!(rt; controller.vector_at(0), None);
    assert_eq!(rt; controller.address_at(vector(0, 0, 0)), None);
}

#[test]
fn the_largest_geometry(rt: HostRuntime) {
    let geometry = unit(0, 65_535, 255, 255).geometry;
    let last = vector(65_534, 254, 254);
    assert_eq!(rt; geometry.size(), 4_261_413_375);
    assert_eq!(rt; geometry.address_at(last), Some(4_261_413_374));
    assert_eq!(rt; geometry.vector_at(4_261_413_374), Some(last));
    assert_eq!(rt; geometry.vector_at(4_261_413_375), None);
}
