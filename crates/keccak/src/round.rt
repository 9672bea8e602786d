// The round of KECCAK-f[1600] on 25 lanes of 64 bits: lane x + 5 y holds the bits A[x, y, z]. Each lane is read once, by the pattern,
// and stays in a local from theta to iota.
ghost use Rattle.std.specs.Prelude.{◌≡◌};
ghost use Rattle.fips202.specs.Lanes.{round_lanes};
ghost use Rattle.keccak.specs.Complemented.{complemented};

// The six marked lanes complemented, as they stand between the rounds. Done twice it changes nothing.
pub fn complement_marked(a: [u64; 25]) -> [u64; 25]
    ensures { result ≡ complemented 64 a }
{
    let mut s = a;
    for i in [1, 2, 8, 12, 17, 20] {
        s[i] = !s[i];
    }
    s
}

// FIPS 202, 3.3, between lanes of which the marked ones are complemented; `rc` is the lane of the round constant. theta, rho and pi are
// written as ever: a complement goes through them. chi's `u ^ (!v & w)` becomes `u ^ (v & w)` or `u ^ (v | w)`, with five complements in all.
pub fn round(a: [u64; 25], rc: u64) -> [u64; 25]
    ensures { result ≡ complemented 64 (round_lanes 64 rc (complemented 64 a)) }
{
    let [
        a0,
        a1,
        a2,
        a3,
        a4,
        a5,
        a6,
        a7,
        a8,
        a9,
        a10,
        a11,
        a12,
        a13,
        a14,
        a15,
        a16,
        a17,
        a18,
        a19,
        a20,
        a21,
        a22,
        a23,
        a24,
    ] = a;
    // theta
    let c0 = a0 ^ a5 ^ a10 ^ a15 ^ a20;
    let c1 = a1 ^ a6 ^ a11 ^ a16 ^ a21;
    let c2 = a2 ^ a7 ^ a12 ^ a17 ^ a22;
    let c3 = a3 ^ a8 ^ a13 ^ a18 ^ a23;
    let c4 = a4 ^ a9 ^ a14 ^ a19 ^ a24;
    let d0 = c4 ^ c1.rotate_left(1);
    let d1 = c0 ^ c2.rotate_left(1);
    let d2 = c1 ^ c3.rotate_left(1);
    let d3 = c2 ^ c4.rotate_left(1);
    let d4 = c3 ^ c0.rotate_left(1);
    // the rest, plane by plane: t is a lane after theta, b after rho and pi, e after chi and iota
    // y = 0
    let b0 = a0 ^ d0;
    let t6 = a6 ^ d1;
    let b1 = t6.rotate_left(44);
    let t12 = a12 ^ d2;
    let b2 = t12.rotate_left(43);
    let t18 = a18 ^ d3;
    let b3 = t18.rotate_left(21);
    let t24 = a24 ^ d4;
    let b4 = t24.rotate_left(14);
    let e0 = b0 ^ (b1 | b2) ^ rc;
    let e1 = b1 ^ (!b2 | b3);
    let e2 = b2 ^ (b3 & b4);
    let e3 = b3 ^ (b4 | b0);
    let e4 = b4 ^ (b0 & b1);
    // y = 1
    let t3 = a3 ^ d3;
    let b5 = t3.rotate_left(28);
    let t9 = a9 ^ d4;
    let b6 = t9.rotate_left(20);
    let t10 = a10 ^ d0;
    let b7 = t10.rotate_left(3);
    let t16 = a16 ^ d1;
    let b8 = t16.rotate_left(45);
    let t22 = a22 ^ d2;
    let b9 = t22.rotate_left(61);
    let e5 = b5 ^ (b6 | b7);
    let e6 = b6 ^ (b7 & b8);
    let e7 = b7 ^ (b8 | !b9);
    let e8 = b8 ^ (b9 | b5);
    let e9 = b9 ^ (b5 & b6);
    // y = 2
    let t1 = a1 ^ d1;
    let b10 = t1.rotate_left(1);
    let t7 = a7 ^ d2;
    let b11 = t7.rotate_left(6);
    let t13 = a13 ^ d3;
    let b12 = t13.rotate_left(25);
    let t19 = a19 ^ d4;
    let b13 = t19.rotate_left(8);
    let not_b13 = !b13;
    let t20 = a20 ^ d0;
    let b14 = t20.rotate_left(18);
    let e10 = b10 ^ (b11 | b12);
    let e11 = b11 ^ (b12 & b13);
    let e12 = b12 ^ (not_b13 & b14);
    let e13 = not_b13 ^ (b14 | b10);
    let e14 = b14 ^ (b10 & b11);
    // y = 3
    let t4 = a4 ^ d4;
    let b15 = t4.rotate_left(27);
    let t5 = a5 ^ d0;
    let b16 = t5.rotate_left(36);
    let t11 = a11 ^ d1;
    let b17 = t11.rotate_left(10);
    let t17 = a17 ^ d2;
    let b18 = t17.rotate_left(15);
    let not_b18 = !b18;
    let t23 = a23 ^ d3;
    let b19 = t23.rotate_left(56);
    let e15 = b15 ^ (b16 & b17);
    let e16 = b16 ^ (b17 | b18);
    let e17 = b17 ^ (not_b18 | b19);
    let e18 = not_b18 ^ (b19 & b15);
    let e19 = b19 ^ (b15 | b16);
    // y = 4
    let t2 = a2 ^ d2;
    let b20 = t2.rotate_left(62);
    let t8 = a8 ^ d3;
    let b21 = t8.rotate_left(55);
    let not_b21 = !b21;
    let t14 = a14 ^ d4;
    let b22 = t14.rotate_left(39);
    let t15 = a15 ^ d0;
    let b23 = t15.rotate_left(41);
    let t21 = a21 ^ d1;
    let b24 = t21.rotate_left(2);
    let e20 = b20 ^ (not_b21 & b22);
    let e21 = not_b21 ^ (b22 | b23);
    let e22 = b22 ^ (b23 & b24);
    let e23 = b23 ^ (b24 | b20);
    let e24 = b24 ^ (b20 & b21);
    [
        e0, e1, e2, e3, e4, e5, e6, e7, e8, e9, e10, e11, e12, e13, e14, e15, e16, e17, e18, e19,
        e20, e21, e22, e23, e24,
    ]
}
