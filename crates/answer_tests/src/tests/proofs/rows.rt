//! Rows of queries over small sets and their proofs, as an independent program made them.

/// A query, and what is told of its proof in edition 1 and in edition 2 at sequence 7: the number of nodes, the number of
/// bytes, and the SHA-256 digest.
pub(super) type Row = (&'static str, &'static str, &'static str);

/// Over no objects.
pub(super) const OVER_EMPTY: [Row; 5] = [
    (
        "",
        "1 146 3f6d6034c758433b21fb96932af3b409de313d51354fd0fb6b3d5d33807bd09b",
        "1 154 0930bbc41e2a1f0ec88371d348cef56bfd8d6ba7ad8425dc1204adf12f2272d2",
    ),
    (
        "node(1);out;",
        "2 154 06ac30cb814daa269e32af8830b71b588d7b803de424721d28d5f81325f5ee48",
        "2 162 4d2d36daaa9b16f7cdcfc94d48ffc1b04c78c997751adf38e576fe3f5a626401",
    ),
    (
        "node;out;",
        "2 154 06ac30cb814daa269e32af8830b71b588d7b803de424721d28d5f81325f5ee48",
        "2 162 4d2d36daaa9b16f7cdcfc94d48ffc1b04c78c997751adf38e576fe3f5a626401",
    ),
    (
        "nwr[\"a\"];out ids;",
        "2 154 4ed03908a7f45184b274bfe71c7e0b7f30796ccabd707dc4285a98154c22724e",
        "2 162 b5237d4a9d1cb813c64cb69acbc67e96c871c51a537a0d13bed5b3592656bec0",
    ),
    (
        ".a out;",
        "1 146 3f6d6034c758433b21fb96932af3b409de313d51354fd0fb6b3d5d33807bd09b",
        "1 154 0930bbc41e2a1f0ec88371d348cef56bfd8d6ba7ad8425dc1204adf12f2272d2",
    ),
];

/// Over two nodes, a way of them, and a relation of the way, of itself and of a node that isn't there.
pub(super) const OVER_ALL_KINDS: [Row; 35] = [
    (
        "",
        "1 146 272edf0931d20df4b687b7e8830a248e6fe126d722db9d5ce2f0346d0c30b53a",
        "1 154 4ff2d2c166529a3f2aa374f6ec52e171378bb8539fd576de7d53ed2ccd047481",
    ),
    (
        ".a out;",
        "1 146 272edf0931d20df4b687b7e8830a248e6fe126d722db9d5ce2f0346d0c30b53a",
        "1 154 4ff2d2c166529a3f2aa374f6ec52e171378bb8539fd576de7d53ed2ccd047481",
    ),
    (
        "node(1);out;",
        "2 439 72fa6fa244d82b40df81b8117478cad772cd6b5a0ccf34cb1f26904f0b9aafbf",
        "2 447 b2e2e6b6e945b36b1919f5ece009f569dedc402f07c0850756f1535d62b07598",
    ),
    (
        "node(1);out meta;",
        "2 439 72fa6fa244d82b40df81b8117478cad772cd6b5a0ccf34cb1f26904f0b9aafbf",
        "2 447 b2e2e6b6e945b36b1919f5ece009f569dedc402f07c0850756f1535d62b07598",
    ),
    (
        "node(2);out meta;",
        "2 439 72fa6fa244d82b40df81b8117478cad772cd6b5a0ccf34cb1f26904f0b9aafbf",
        "2 447 b2e2e6b6e945b36b1919f5ece009f569dedc402f07c0850756f1535d62b07598",
    ),
    (
        "way(10);(._;>;);out ids;",
        "2 439 72fa6fa244d82b40df81b8117478cad772cd6b5a0ccf34cb1f26904f0b9aafbf",
        "2 447 b2e2e6b6e945b36b1919f5ece009f569dedc402f07c0850756f1535d62b07598",
    ),
    (
        "node(1);(node(2);._;);out ids;",
        "2 439 72fa6fa244d82b40df81b8117478cad772cd6b5a0ccf34cb1f26904f0b9aafbf",
        "2 447 b2e2e6b6e945b36b1919f5ece009f569dedc402f07c0850756f1535d62b07598",
    ),
    (
        "rel(100);>;out ids;",
        "2 439 72fa6fa244d82b40df81b8117478cad772cd6b5a0ccf34cb1f26904f0b9aafbf",
        "2 447 b2e2e6b6e945b36b1919f5ece009f569dedc402f07c0850756f1535d62b07598",
    ),
    (
        "rel(100);>>;out ids;",
        "2 439 72fa6fa244d82b40df81b8117478cad772cd6b5a0ccf34cb1f26904f0b9aafbf",
        "2 447 b2e2e6b6e945b36b1919f5ece009f569dedc402f07c0850756f1535d62b07598",
    ),
    (
        "rel(100);<;out ids;",
        "2 439 72fa6fa244d82b40df81b8117478cad772cd6b5a0ccf34cb1f26904f0b9aafbf",
        "2 447 b2e2e6b6e945b36b1919f5ece009f569dedc402f07c0850756f1535d62b07598",
    ),
    (
        "rel(100);<<;out ids;",
        "3 567 2ee89c1efc08a7ce7c88154ac848c20d640ef8cf5d58a19151be1befb1fe8702",
        "3 575 675f470169669ffe62513dff835b0a85b8a86687a13e7e2f85470f1359de2c50",
    ),
    (
        "node(2);<;out ids;",
        "3 567 2ee89c1efc08a7ce7c88154ac848c20d640ef8cf5d58a19151be1befb1fe8702",
        "3 575 675f470169669ffe62513dff835b0a85b8a86687a13e7e2f85470f1359de2c50",
    ),
    (
        "node(2);<<;out ids;",
        "3 567 2ee89c1efc08a7ce7c88154ac848c20d640ef8cf5d58a19151be1befb1fe8702",
        "3 575 675f470169669ffe62513dff835b0a85b8a86687a13e7e2f85470f1359de2c50",
    ),
    (
        "rel(100);node(r);out ids;",
        "2 439 72fa6fa244d82b40df81b8117478cad772cd6b5a0ccf34cb1f26904f0b9aafbf",
        "2 447 b2e2e6b6e945b36b1919f5ece009f569dedc402f07c0850756f1535d62b07598",
    ),
    (
        "node(52.49999999999,13.40000004,52.6,13.5);out ids;",
        "2 206 06c890d30623be18098c73ee7d7206bcf5803e2756c566c342cf3af939777e57",
        "2 214 a957847a16f71ad8a631d9ef246d7f27cb2ec2707151aa82ce78c5e18e556f97",
    ),
    (
        "node[\"highway\"!=\"crossing\"];out ids;",
        "2 439 72fa6fa244d82b40df81b8117478cad772cd6b5a0ccf34cb1f26904f0b9aafbf",
        "2 447 b2e2e6b6e945b36b1919f5ece009f569dedc402f07c0850756f1535d62b07598",
    ),
    (
        "(node;-node[\"highway\"];);out ids;",
        "3 560 180850ea45b3b11da0a5e56a5f28cb6659be9df8f16d77d49f6faa5a565f0a02",
        "3 568 6a4dfd6aa985ce2d4622f2f58be552a20c1b40930c3636b9498fc0d42608f652",
    ),
    (
        "node(1);out ids;out skel;",
        "2 439 72fa6fa244d82b40df81b8117478cad772cd6b5a0ccf34cb1f26904f0b9aafbf",
        "2 447 b2e2e6b6e945b36b1919f5ece009f569dedc402f07c0850756f1535d62b07598",
    ),
    (
        "node(1);out ids 0;",
        "2 439 72fa6fa244d82b40df81b8117478cad772cd6b5a0ccf34cb1f26904f0b9aafbf",
        "2 447 b2e2e6b6e945b36b1919f5ece009f569dedc402f07c0850756f1535d62b07598",
    ),
    (
        "way(10);out skel;",
        "2 439 72fa6fa244d82b40df81b8117478cad772cd6b5a0ccf34cb1f26904f0b9aafbf",
        "2 447 b2e2e6b6e945b36b1919f5ece009f569dedc402f07c0850756f1535d62b07598",
    ),
    (
        "rel(100)->.a;(way(r.a);node(w););out ids;",
        "2 439 72fa6fa244d82b40df81b8117478cad772cd6b5a0ccf34cb1f26904f0b9aafbf",
        "2 447 b2e2e6b6e945b36b1919f5ece009f569dedc402f07c0850756f1535d62b07598",
    ),
    (
        "(node(1);node(2););out ids 1;",
        "2 439 72fa6fa244d82b40df81b8117478cad772cd6b5a0ccf34cb1f26904f0b9aafbf",
        "2 447 b2e2e6b6e945b36b1919f5ece009f569dedc402f07c0850756f1535d62b07598",
    ),
    (
        "nwr[\"name\"];out tags;",
        "3 560 180850ea45b3b11da0a5e56a5f28cb6659be9df8f16d77d49f6faa5a565f0a02",
        "3 568 6a4dfd6aa985ce2d4622f2f58be552a20c1b40930c3636b9498fc0d42608f652",
    ),
    (
        "rel(100);rel(br);out ids;",
        "3 567 2ee89c1efc08a7ce7c88154ac848c20d640ef8cf5d58a19151be1befb1fe8702",
        "3 575 675f470169669ffe62513dff835b0a85b8a86687a13e7e2f85470f1359de2c50",
    ),
    (
        ".b out;",
        "1 146 272edf0931d20df4b687b7e8830a248e6fe126d722db9d5ce2f0346d0c30b53a",
        "1 154 4ff2d2c166529a3f2aa374f6ec52e171378bb8539fd576de7d53ed2ccd047481",
    ),
    (
        "node[\"highway\"];out ids;",
        "2 267 b58314e4019ca683279c2e47691ea8a554c4eab3c4b6c04e303b4bceb3585af5",
        "2 275 cfc523aff9cf4c7e75ed448881c745cba162164aa3bea9584394cfe46f786964",
    ),
    (
        "node[\"highway\"];out;",
        "3 560 180850ea45b3b11da0a5e56a5f28cb6659be9df8f16d77d49f6faa5a565f0a02",
        "3 568 6a4dfd6aa985ce2d4622f2f58be552a20c1b40930c3636b9498fc0d42608f652",
    ),
    (
        "nwr(100);out ids;",
        "2 439 72fa6fa244d82b40df81b8117478cad772cd6b5a0ccf34cb1f26904f0b9aafbf",
        "2 447 b2e2e6b6e945b36b1919f5ece009f569dedc402f07c0850756f1535d62b07598",
    ),
    (
        "nwr;out meta;",
        "2 439 72fa6fa244d82b40df81b8117478cad772cd6b5a0ccf34cb1f26904f0b9aafbf",
        "2 447 b2e2e6b6e945b36b1919f5ece009f569dedc402f07c0850756f1535d62b07598",
    ),
    (
        "way[highway=primary][name];out tags;",
        "3 560 180850ea45b3b11da0a5e56a5f28cb6659be9df8f16d77d49f6faa5a565f0a02",
        "3 568 6a4dfd6aa985ce2d4622f2f58be552a20c1b40930c3636b9498fc0d42608f652",
    ),
    (
        "rel(r);out ids;",
        "1 146 272edf0931d20df4b687b7e8830a248e6fe126d722db9d5ce2f0346d0c30b53a",
        "1 154 4ff2d2c166529a3f2aa374f6ec52e171378bb8539fd576de7d53ed2ccd047481",
    ),
    (
        "node(id:1,2,99);out skel 1;",
        "2 439 72fa6fa244d82b40df81b8117478cad772cd6b5a0ccf34cb1f26904f0b9aafbf",
        "2 447 b2e2e6b6e945b36b1919f5ece009f569dedc402f07c0850756f1535d62b07598",
    ),
    (
        "node(1);way(bn);out ids;",
        "3 567 2ee89c1efc08a7ce7c88154ac848c20d640ef8cf5d58a19151be1befb1fe8702",
        "3 575 675f470169669ffe62513dff835b0a85b8a86687a13e7e2f85470f1359de2c50",
    ),
    (
        "way(bn);out;",
        "1 146 272edf0931d20df4b687b7e8830a248e6fe126d722db9d5ce2f0346d0c30b53a",
        "1 154 4ff2d2c166529a3f2aa374f6ec52e171378bb8539fd576de7d53ed2ccd047481",
    ),
    (
        "nwr(1);nwr(10);out;",
        "2 439 72fa6fa244d82b40df81b8117478cad772cd6b5a0ccf34cb1f26904f0b9aafbf",
        "2 447 b2e2e6b6e945b36b1919f5ece009f569dedc402f07c0850756f1535d62b07598",
    ),
];

/// Over nodes on both sides of the date line.
pub(super) const OVER_DATELINE: [Row; 6] = [
    (
        "node(-1,179,1,-179);out ids;",
        "2 232 5055cc00dedefea136317d303ae7063407327de2c6b0f87c12cc117217b32bd0",
        "2 240 0a47fa207992ce2dd2df3caae02ff449466b7923257ed3afe881934d3abb54ee",
    ),
    (
        "node(-1,-180,1,180);out ids;",
        "2 232 5055cc00dedefea136317d303ae7063407327de2c6b0f87c12cc117217b32bd0",
        "2 240 0a47fa207992ce2dd2df3caae02ff449466b7923257ed3afe881934d3abb54ee",
    ),
    (
        "node(0,0,0,0);out;",
        "3 368 4b2d231d2a36b30c2304dfb2eb550eaeed7b5978eb2a4b28ee5c3733b1748c74",
        "3 376 0afb94716c824e6787d2d12e97ab7542d3ded3395b337853dba21d3ac2e19c21",
    ),
    (
        "node(-90,180,90,180);out ids;",
        "2 232 5055cc00dedefea136317d303ae7063407327de2c6b0f87c12cc117217b32bd0",
        "2 240 0a47fa207992ce2dd2df3caae02ff449466b7923257ed3afe881934d3abb54ee",
    ),
    (
        "node(0.00000001,-180,1,180);out ids;",
        "2 232 5055cc00dedefea136317d303ae7063407327de2c6b0f87c12cc117217b32bd0",
        "2 240 0a47fa207992ce2dd2df3caae02ff449466b7923257ed3afe881934d3abb54ee",
    ),
    (
        "node(-1,-0.00000001,1,0.00000001);out ids;",
        "2 232 5055cc00dedefea136317d303ae7063407327de2c6b0f87c12cc117217b32bd0",
        "2 240 0a47fa207992ce2dd2df3caae02ff449466b7923257ed3afe881934d3abb54ee",
    ),
];

/// Over one node.
pub(super) const OVER_ONE: [Row; 5] = [
    (
        "node(1);out meta;",
        "2 195 34e3ea31ed24d16317924db676deeb55ca6d0518771c2ff0563fa933f6a95d3b",
        "2 203 f363dbe7684764190b11648025d900296e81ce4a4b431924511198af5b3caf39",
    ),
    (
        "node(2);out;",
        "2 195 34e3ea31ed24d16317924db676deeb55ca6d0518771c2ff0563fa933f6a95d3b",
        "2 203 f363dbe7684764190b11648025d900296e81ce4a4b431924511198af5b3caf39",
    ),
    (
        "node;out ids;",
        "2 195 34e3ea31ed24d16317924db676deeb55ca6d0518771c2ff0563fa933f6a95d3b",
        "2 203 f363dbe7684764190b11648025d900296e81ce4a4b431924511198af5b3caf39",
    ),
    (
        "nwr;out skel;",
        "2 195 34e3ea31ed24d16317924db676deeb55ca6d0518771c2ff0563fa933f6a95d3b",
        "2 203 f363dbe7684764190b11648025d900296e81ce4a4b431924511198af5b3caf39",
    ),
    (
        "node(-90,-180,90,180);out ids;",
        "2 180 575189a229316ac8f18b63e8601f4c4e7039b626de96657b3d503571e349acad",
        "2 188 3de53bdc1d4e9a4739b2257e18ae7c9d542e7022e03065f7bbdb297bb72bc9b0",
    ),
];
