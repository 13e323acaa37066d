use super::*;
use std::simd::prelude::*;

#[test]
fn the_modulus_is_the_codes(rt: HostRuntime) {
    assert_eq!(rt; mul(2, 128), 29);
    assert_eq!(rt; inv(2), Some(142));
    assert_eq!(rt; exp(8), 29);
}

#[test]
fn zero_has_no_inverse(rt: HostRuntime) {
    assert_eq!(rt; inv(0), None);
    assert_eq!(rt; inv(1), Some(1));
}

#[test]
fn powers_of_two_come_back_to_one(rt: HostRuntime) {
    assert_eq!(rt; exp(0), 1);
    assert_eq!(rt; exp(255), 1);
}

/// The products are those of another program.
#[test]
fn each_lane_is_a_product(rt: HostRuntime) {
    let src = u8x32::from_array([
        0, 9, 18, 27, 36, 45, 54, 56, 65, 74, 83, 92, 101, 110, 112, 121, 130, 139, 148, 157, 166,
        168, 177, 186, 195, 204, 213, 222, 224, 233, 242, 251,
    ]);
    let products = [
        0, 138, 9, 131, 18, 152, 27, 28, 174, 37, 167, 46, 188, 55, 56, 178, 65, 203, 74, 192, 83,
        84, 214, 93, 239, 102, 228, 111, 112, 250, 121, 243,
    ];
    assert_eq!(rt; mul_lanes(src, 142).to_array(), products);
    assert_eq!(rt; mul_lanes(src, 1).to_array(), src.to_array());
    assert_eq!(rt; mul_lanes(src, 0).to_array(), [0; 32]);
}
