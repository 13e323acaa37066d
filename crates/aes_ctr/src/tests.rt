//! Keys, bytes and keystreams that other programs and the standards give.

use crate::Key;
use crate::rounds::encrypted;
use crate::schedule::{expanded, key_planes};
use crate::transposition::{blocks_of, lower, planes_of, twice};
use hex::FromHex;
use std::process::Abort;
use std::simd::prelude::*;
use std::test::Fail;

/// A key, an offset that is a multiple of 16 or not, bytes, and what `openssl enc -aes-128-ctr` made of them. The tenth
/// one ends where the offsets do. In the nine after it more than the lowest byte of a counter changes: blocks 255, 256 and
/// 257, 65535 and 65536, and those where the third byte, the fourth and the sixth begin to change. The last ones lie where
/// a group of sixteen blocks ends, or its first half, and the last of all is longer than a group.
const OPENSSL: [(&str, u64, &str, &str); 30] = [
    ("e6acc2691ab2452ebc0a3cf47a489703", 0, "47", "88"),
    (
        "bab34b0975dde57ec8c694972afc89b4",
        0,
        "40ee78f842b5a7483f891361bdc86d9d",
        "2576b3d3e82f521201bd959728d6ea54",
    ),
    (
        "f15b45418c0c2757ad8c7da22b4a8784",
        0,
        "31439b26fd1416f3f1c830449fd657e9e2f74e5b6167943c61e4cdef229c3a6f699c6a93dff230ba7d5ebe954d05abc1",
        "35e030c6bb8368cd957694fee307cf635df6c47b107958f595f4e462df416eaa52ed49d74e7aed28a6a90c3f6f57a7c5",
    ),
    (
        "4b9141215b123b8fd52d62e2e3d01659",
        0,
        "5830fe98517c8c773c30e4ddab79551ce72d0c920f82b7869dcd20ba071f5b507524e1d715006fc7ec2f92ed97a835e4604c3c11b45f675c7395003f1a72dac18dae43a31b052ff35a4b6bb2404b9533579bee682b3c4f0d4fb49dba0b850de400a392f0",
        "8256fe85fd238a82efb3be0331afbe9ca3594d77279f71dd8bb46706e3388b094cf3ce33e77024990ba1f54fdee6fda640829ac72baf2c9385b25a65d649fa43d7fea4f928375fd2ab66cc0b3ea22645437373e510599906080ea86bc3a0eae8dca46f22",
    ),
    (
        "e89f1a0c112b0a9dd78feb8f2bdb240c",
        5,
        "c90884072202a134fddc35aa0d063c1175e77fb2be233c217d80e6ecff1614ec2a",
        "a281584893d6f9ada0f873ddd75f5a826a23889480f4db84c8235b831ece5181b8",
    ),
    (
        "5d506e7d667a921443b1e9a0e0fc0099",
        16,
        "3cb865914b5b1e77825b1105366036f3ea8b741ede7f91a99e7db2fbda2168686ffeefa64ce9cc210c49f26f18f7830137ec14733c08442572c60eaf68838ea0",
        "b8883f566bd218a2f94e59487ff12e9e38f76b34d75642bcb649527db93910825185c4c1298567a414b64ad83cdbbc93708754b114c84a65bb7f19c9c8424f1b",
    ),
    (
        "6f74d518810579e1add7a7bd292dcaf2",
        31,
        "5b8940264d1645",
        "09cf1fa8aaa730",
    ),
    (
        "743c0c6c2ea97a16f97546c937eb8168",
        65539,
        "19a3c924dbe2d9d53f717da0300b600215ac56d6af19764d859af29134a72575e87192076ec33c6a",
        "d1338b6b357b967314d773efe5b63a6d5dc625cdd254976c678137f9abc08b9680fee542d7785f5b",
    ),
    (
        "2ee0cef6d56b452c45c9f71de97f2fc4",
        68719476720,
        "a4232abe426f14147e420f374184f3dc8256ee5f46166239b5eff0a719a3a8c4",
        "741692e0a6959b3d26ca1b5a2a8f4ac88fc9d555933ffb01c4d9e50900e0147f",
    ),
    (
        "3509e15c23e24064a2dc6053b3164b9a",
        18446744073709551576,
        "b286227bc7ff1b050bf4b976c928f0a169e032cd2d365edaca4a99479294bb5addbdae8c6d7baa",
        "1dfe3de099f336c566d1f3c5795c52a234af8604e4e3e50016a75c80cb77d5eb66defefdb49b14",
    ),
    (
        "c8b7061a7a6d55b7bf8857da1dd4cef0",
        4080,
        "397ecb5c451da48ac539e5420222c71289d72d35b4bbeab0008506b6f0d95114c99f2e0a3f8f242fa1fc87cd73537d8a",
        "0d2eded1be87cf0623f6c5c8d211625b272549d7af8d86c6a9ff984c8035a7f008cd9a7b4d7f6b2009b642ffe242d0d3",
    ),
    (
        "b9255a255c72e5e91ac2553351f34140",
        4087,
        "996478decfb6dee5e253666f01d73a3ce497a76b5a009981fd8cb1663ae075008b",
        "9065a52e633604998113bfd709bf893d83d11eaac4b1ccb6dd64d2c5ffe04b22bb",
    ),
    (
        "5784f333246befbfe7a4ba0ad1551686",
        4096,
        "97f17f6f8cdfea80d59abb84aaa2098c9ae7050c0d2cd19011f9efce3680b946",
        "5f9c68e3f6dd53f38021ed812befc2c1d66ec7376afc7197e00aad77ec9aea2a",
    ),
    (
        "4157806170afadac5f4281da30e86c84",
        4115,
        "eee84b7127d77348da7991fddce9d9b2",
        "d53dd4f4ce5f8cf11148fd40ca26e707",
    ),
    (
        "2d59b74719c14ac363530db82c5f00fd",
        1048560,
        "8a165bd5eab79f0a90c4d52c6faab079330ed62c7be63ad31b5400dece221a60",
        "dbc27579d036a6524e09918863eb3454eaeb5863fe9fa0835d41982f7d166647",
    ),
    (
        "5772424470be1bde0d9700471b351f4f",
        268435448,
        "adb67af27e1de78d0a739fcb5d13bb3c5cc58c205440ceed",
        "00b3d2bae731ba1424abede0822b5aa2b7a506fbe835bc70",
    ),
    (
        "ef84204fac74d49693c483ff37b893fe",
        68719476733,
        "7e1889e44d548f0ac8a1392acbcfec663bf39ee4b5",
        "43589d1401b14bd34a06bcdbb4382d1f51f7dfb310",
    ),
    (
        "52867f9fe70cd765122bb420f6220e8c",
        68719476736,
        "2775134d2edd410e83330a60807030a0",
        "d2b19fc5e4299c48c11142226a80625f",
    ),
    (
        "aa3d7d6fd99e654031145eb71e2a5b7c",
        17592186044400,
        "64046fc3b88ce9194cd93382c621d0b815162649c9173a65e34f6d8824210519",
        "7ed8d0e63579533d5549b45c1e73f7e6c72a5b6c64edea143ec23da0c385fb56",
    ),
    (
        "c4b771095f16b197a1edf8423a513cd1",
        112,
        "a65f644d1718838a924d7ed69bd8ab251956bc2a25c8a748fa84c164aa7dbb3c",
        "9654e5ecddecbb45207b177d2d5d7dd387cafe52123f50241d26c51b15c0c91a",
    ),
    (
        "f252e4f360e75cf1e4789e44d1baa9ec",
        125,
        "bf9427166fc1cb",
        "cd6bf5fc335780",
    ),
    (
        "3d49662909c8e976969dbd0835d2d6f4",
        128,
        "6302d5ea8c14ec291ce9d3be9f2c3a34",
        "2f7986871f7f5ddd32e760fecd752877",
    ),
    (
        "034d730afe7595953bc372fe19c2cdbd",
        135,
        "f9f53ca63c1a797df7e19426dfb49db71a9fabb651f89fccd9",
        "4eb62a007eda2adaad9217cf94a3a47189b78330514ea8d9be",
    ),
    (
        "dad4270739fefa0d818b48721edda4dd",
        248,
        "e66e4def098748847e1d4ce154d9af93",
        "e0cce2312ceaf011420d0dd6ecdc11b5",
    ),
    (
        "3e8e2cbc7cd062a5722ffcf9709a98ad",
        250,
        "ef7c9b8b8dd377bf19de3046e9e06c79f4555ab2b713d2080191ad860508",
        "ce2719d91cce16666a57171ff8b2c34862bd2eaaf80b515b1ea660139cce",
    ),
    ("c119c979e13028c95824bf3d8fe13dc9", 255, "e282", "1509"),
    (
        "d80d422bc7797e62e0f645f013c88740",
        256,
        "49677ed3d0d473e98a01a027a83a6b46",
        "bade562a234f3c0d2dcfbaed8ede73c5",
    ),
    (
        "3ba00db73497b4685de3f582c0113923",
        383,
        "fd403375fecd6ba0939447e4d4ac513c067448",
        "0d391c54616095869df93d60a842998d5447e0",
    ),
    (
        "d59f3cc58b9b63fc54c25d82438add86",
        500,
        "ff045d1ba8c8d7aa84972fb4f72aa2e2f4e539ac8fa13644",
        "b1e5e4aab09c2648565d911ca10b46ffb4cebfeeef3b788a",
    ),
    (
        "33e3a018311cf9dc23bb4f2358264c50",
        3,
        "c3b2aaad6db16314d7d8bd7c2bea142bf33e399351c13a158bb03612988d4c06df2b48ddcdafb4aba1c7dbd6bcfb8099c60173b301f06b0a699184d21343f74bbc3e1138aa020b47a8caff5412929f7135991c9f96ece140f6c4983eb0b31103dc97c4179c3da89b0df309500929961c930e22c42f161fc601a9ca7c47a475f71a6dd9c1d23bb7c70c7f1a8877c1bd8357bb13786a2041cbf62f37b2e9e2e34bd6de282c1fc9276d9c26333a0dd8ade09fe69eddbea6c14115e98c19609b5e196ce63f533c6d520a0d6573e8268e54b1264815b61bb8e69cd0385a492287ab0aec8315975cab9c13211e1c2e1b1402a8b209390eebf575bcb882908e210debf806d3f438aaf16f920390f51353c99244ebeecd66b884464b53a640fe5cec470d2dccddff1edf577901dfa20e",
        "2bc59e775b09eaf3b66e43e1df09d84d671fcc3ad19cb3d37b08b9022d9591ce197df076e587ec00a23ea086ae3ef2fbd9a19e795454d5c971f1a908f4dfc9c25f749d10f570d910a8d0ebc9368183f18f3fe317e8d23975f5f8bafc4a0e28ea69273acd639ce9311f188916ab91d548f722f7509a5e4b3e11bfc17346c013b16c2020dec758b64a3d72f796bd06f5f80c7eba9ff8895da86186f8f8ced30e1496425e8e53d809bf54eb47349b460dde48e1cc657f746b5c55fe4b19bcfb0c12448916656be64e0b6cd7bcb3e4517732a6c9c4212f3da102cef46d3606f6997fbfc473aecb0480f49aeb0b9bee33442020e83554b5b9b2e8ce7ffe86ba6411ce95a107b25d88c30da805a7f4f6df95a663252d86a80a4032e4f92a0a4deea281524faf95e9aaf3ef663f59dd",
    ),
];

#[test]
fn openssl_makes_the_same_bytes(rt: HostRuntime) -> Result<(), Fail> {
    for (key, offset, bytes, want) in OPENSSL {
        same_bytes(&rt, key, offset, bytes, want)?;
    }
    Ok(())
}

/// Applies a key at an offset, and compares.
fn same_bytes(
    rt: &(impl Abort + AllocGlobal),
    key: &str,
    offset: u64,
    bytes: &str,
    want: &str,
) -> Result<(), Fail> {
    let key = <[u8; 16] as FromHex>::from_hex(key)?;
    let mut got = hex::decode(rt.alloc(), bytes)?;
    assert!(rt; u64::MAX - offset >= got.len() as u64);
    Key::new(key).apply(offset, &mut got);
    let got = hex::encode(rt.alloc(), got.as_slice())?;
    assert_eq!(rt; got.as_str(), want, "at {offset}");
    Ok(())
}

/// The first 48 bytes of the keystream of the key of zeros.
const OF_ZEROS: &str =
    "66e94bd4ef8a2c3b884cfa59ca342b2e58e2fccefa7e3061367f1d57a4e7455a0388dace60b6a392f328c2b971b2fe78";

/// Where bytes of it begin and end.
const RANGES: [(usize, usize); 5] = [(0, 48), (17, 21), (31, 33), (16, 48), (47, 48)];

#[test]
fn the_keystream_goes_on_at_any_offset(rt: HostRuntime) -> Result<(), Fail> {
    let key = Key::new([0; 16]);
    let want = <[u8; 48] as FromHex>::from_hex(OF_ZEROS)?;
    for (from, to) in RANGES {
        let mut got = [0; 48];
        key.apply(from as u64, &mut got[from..to]);
        assert_eq!(rt; &got[from..to], &want[from..to], "from {from}");
    }
    Ok(())
}

/// A key, a block, bytes, and what they become with the block's encryption: FIPS 197, appendices B and C.1, where the
/// bytes are zeros, and SP 800-38A, appendix F.5.1, where the blocks are counters.
const EXAMPLES: [(&str, &str, &str, &str); 6] = [
    (
        "2b7e151628aed2a6abf7158809cf4f3c",
        "3243f6a8885a308d313198a2e0370734",
        "00000000000000000000000000000000",
        "3925841d02dc09fbdc118597196a0b32",
    ),
    (
        "000102030405060708090a0b0c0d0e0f",
        "00112233445566778899aabbccddeeff",
        "00000000000000000000000000000000",
        "69c4e0d86a7b0430d8cdb78070b4c55a",
    ),
    (
        "2b7e151628aed2a6abf7158809cf4f3c",
        "f0f1f2f3f4f5f6f7f8f9fafbfcfdfeff",
        "6bc1bee22e409f96e93d7e117393172a",
        "874d6191b620e3261bef6864990db6ce",
    ),
    (
        "2b7e151628aed2a6abf7158809cf4f3c",
        "f0f1f2f3f4f5f6f7f8f9fafbfcfdff00",
        "ae2d8a571e03ac9c9eb76fac45af8e51",
        "9806f66b7970fdff8617187bb9fffdff",
    ),
    (
        "2b7e151628aed2a6abf7158809cf4f3c",
        "f0f1f2f3f4f5f6f7f8f9fafbfcfdff01",
        "30c81c46a35ce411e5fbc1191a0a52ef",
        "5ae4df3edbd5d35e5b4f09020db03eab",
    ),
    (
        "2b7e151628aed2a6abf7158809cf4f3c",
        "f0f1f2f3f4f5f6f7f8f9fafbfcfdff02",
        "f69f2445df4f9b17ad2b417be66c3710",
        "1e031dda2fbe03d1792170a0f3009cee",
    ),
];

/// The bytes with the block's encryption.
fn encryption(key: [u8; 16], plain: [u8; 16], bytes: [u8; 16]) -> [u8; 16] {
    let keys = key_planes(&expanded(key));
    let blocks = blocks_of(encrypted(&keys, planes_of(twice(plain))));
    (u8x16::from_array(lower(blocks[7])) ^ u8x16::from_array(bytes)).to_array()
}

/// The 16 bytes that a text in hex is.
fn sixteen(text: &str) -> Result<[u8; 16], Fail> {
    Ok(<[u8; 16] as FromHex>::from_hex(text)?)
}

#[test]
fn the_examples_of_the_standards_are_encrypted(rt: HostRuntime) -> Result<(), Fail> {
    for (key, block, bytes, want) in EXAMPLES {
        let got = encryption(sixteen(key)?, sixteen(block)?, sixteen(bytes)?);
        assert_eq!(rt; got, sixteen(want)?, "{want}");
    }
    Ok(())
}
