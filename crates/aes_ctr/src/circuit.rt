//! SubBytes as a circuit over bits: 115 gates and four complements (Boyar and Peralta, "A New Combinational Logic
//! Minimization Technique with Applications to Cryptology", 2010), whose gates keep their published names.

ghost use Rattle.std.specs.Prelude.{◌≡◌, ℕ, ◌<◌, List, slice_index};
ghost use Rattle.aes_ctr.specs.Circuit.{input_sums, inverse_of_norm, norm, output_sums, products};
ghost use Rattle.aes_ctr.specs.Planes.{planes, plane_vectors};
ghost use Rattle.aes_ctr.specs.Rounds.{sub_bytes};

use std::simd::prelude::*;

/// The sums of planes that are multiplied: the lowest plane itself, and y1 to y21.
#[inline(always)]
fn input_sums(x: [u8x32; 8]) -> [u8x32; 22]
    ensures { (f : ℕ → List ℕ) → x ≡ plane_vectors 8 f → result ≡ plane_vectors 22 (λ i. input_sums (f i)) }
{
    let [u7, u6, u5, u4, u3, u2, u1, u0] = x;
    let y14 = u3 ^ u5;
    let y13 = u0 ^ u6;
    let y9 = u0 ^ u3;
    let y8 = u0 ^ u5;
    let t0 = u1 ^ u2;
    let y1 = t0 ^ u7;
    let y4 = y1 ^ u3;
    let y12 = y13 ^ y14;
    let y2 = y1 ^ u0;
    let y5 = y1 ^ u6;
    let y3 = y5 ^ y8;
    let t1 = u4 ^ y12;
    let y15 = t1 ^ u5;
    let y20 = t1 ^ u1;
    let y6 = y15 ^ u7;
    let y10 = y15 ^ t0;
    let y11 = y20 ^ y9;
    let y7 = u7 ^ y11;
    let y17 = y10 ^ y11;
    let y19 = y10 ^ y8;
    let y16 = t0 ^ y11;
    let y21 = y13 ^ y16;
    let y18 = u0 ^ y16;
    [
        u7, y1, y2, y3, y4, y5, y6, y7, y8, y9, y10, y11, y12, y13, y14, y15, y16, y17, y18, y19,
        y20, y21,
    ]
}

/// The norms of the bytes in the field of 16 elements, whose inverses are wanted: t21 to t24.
#[inline(always)]
fn norm(y: [u8x32; 22]) -> [u8x32; 4]
    ensures { (f : ℕ → List ℕ) → y ≡ plane_vectors 22 f → result ≡ plane_vectors 4 (λ i. norm (f i)) }
{
    let t2 = y[12] & y[15];
    let t3 = y[3] & y[6];
    let t4 = t3 ^ t2;
    let t5 = y[4] & y[0];
    let t6 = t5 ^ t2;
    let t7 = y[13] & y[16];
    let t8 = y[5] & y[1];
    let t9 = t8 ^ t7;
    let t10 = y[2] & y[7];
    let t11 = t10 ^ t7;
    let t12 = y[9] & y[11];
    let t13 = y[14] & y[17];
    let t14 = t13 ^ t12;
    let t15 = y[8] & y[10];
    let t16 = t15 ^ t12;
    let t17 = t4 ^ t14;
    let t18 = t6 ^ t16;
    let t19 = t9 ^ t14;
    let t20 = t11 ^ t16;
    let t21 = t17 ^ y[20];
    let t22 = t18 ^ y[19];
    let t23 = t19 ^ y[21];
    let t24 = t20 ^ y[18];
    [t21, t22, t23, t24]
}

/// The inverses in the field of 16 elements, t29, t33, t37 and t40, and the sums of their bits, t41 to t45.
#[inline(always)]
fn inverse_of_norm(t: [u8x32; 4]) -> [u8x32; 9]
    ensures { (f : ℕ → List ℕ) → t ≡ plane_vectors 4 f → result ≡ plane_vectors 9 (λ i. inverse_of_norm (f i)) }
{
    let [t21, t22, t23, t24] = t;
    let t25 = t21 ^ t22;
    let t26 = t21 & t23;
    let t27 = t24 ^ t26;
    let t28 = t25 & t27;
    let t29 = t28 ^ t22;
    let t30 = t23 ^ t24;
    let t31 = t22 ^ t26;
    let t32 = t31 & t30;
    let t33 = t32 ^ t24;
    let t34 = t23 ^ t33;
    let t35 = t27 ^ t33;
    let t36 = t24 & t35;
    let t37 = t36 ^ t34;
    let t38 = t27 ^ t36;
    let t39 = t29 & t38;
    let t40 = t25 ^ t39;
    let t41 = t40 ^ t37;
    let t42 = t29 ^ t33;
    let t43 = t29 ^ t40;
    let t44 = t33 ^ t37;
    let t45 = t42 ^ t41;
    [t29, t33, t37, t40, t41, t42, t43, t44, t45]
}

/// The products of these inverses and the sums of the input: z0 to z17.
#[inline(always)]
fn products(y: [u8x32; 22], t: [u8x32; 9]) -> [u8x32; 18]
    ensures { (f g : ℕ → List ℕ) → y ≡ plane_vectors 22 f → t ≡ plane_vectors 9 g
        → result ≡ plane_vectors 18 (λ i. products (f i) (g i)) }
{
    let [t29, t33, t37, t40, t41, t42, t43, t44, t45] = t;
    [
        t44 & y[15],
        t37 & y[6],
        t33 & y[0],
        t43 & y[16],
        t40 & y[1],
        t29 & y[7],
        t42 & y[11],
        t45 & y[17],
        t41 & y[10],
        t44 & y[12],
        t37 & y[3],
        t33 & y[4],
        t43 & y[13],
        t40 & y[5],
        t29 & y[2],
        t42 & y[9],
        t45 & y[14],
        t41 & y[8],
    ]
}

/// The planes of the outcome, from the products.
#[inline(always)]
fn output_sums(z: [u8x32; 18]) -> [u8x32; 8]
    ensures { (f : ℕ → List ℕ) → z ≡ plane_vectors 18 f → result ≡ plane_vectors 8 (λ i. output_sums 255 (f i)) }
{
    let ones = u8x32::splat(255);
    let t46 = z[15] ^ z[16];
    let t47 = z[10] ^ z[11];
    let t48 = z[5] ^ z[13];
    let t49 = z[9] ^ z[10];
    let t50 = z[2] ^ z[12];
    let t51 = z[2] ^ z[5];
    let t52 = z[7] ^ z[8];
    let t53 = z[0] ^ z[3];
    let t54 = z[6] ^ z[7];
    let t55 = z[16] ^ z[17];
    let t56 = z[12] ^ t48;
    let t57 = t50 ^ t53;
    let t58 = z[4] ^ t46;
    let t59 = z[3] ^ t54;
    let t60 = t46 ^ t57;
    let t61 = z[14] ^ t57;
    let t62 = t52 ^ t58;
    let t63 = t49 ^ t58;
    let t64 = z[4] ^ t59;
    let t65 = t61 ^ t62;
    let t66 = z[1] ^ t63;
    let s0 = t59 ^ t63;
    let s6 = t56 ^ t62;
    let s7 = t48 ^ t60;
    let t67 = t64 ^ t65;
    let s3 = t53 ^ t66;
    let s4 = t51 ^ t66;
    let s5 = t47 ^ t65;
    let s1 = t64 ^ s3;
    let s2 = t55 ^ t67;
    [s7 ^ ones, s6 ^ ones, s5, s4, s3, s2 ^ ones, s1 ^ ones, s0]
}

/// SubBytes (FIPS 197, section 5.1.1) on each of sixteen states.
#[inline(always)]
pub(crate) fn substituted(x: [u8x32; 8]) -> [u8x32; 8]
    ensures { (s : ℕ → List ℕ) → ((j i : ℕ) → slice_index (s j) i < 256) → x ≡ planes s
        → result ≡ planes (λ j. sub_bytes (s j)) }
{
    let y = input_sums(x);
    let t = inverse_of_norm(norm(y));
    output_sums(products(y, t))
}
