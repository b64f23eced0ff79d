//! Trees of lists made by rule, computed by an independent program.

use tree_build::Shape;
use tree_node::Tree;

/// The tree of a list made by rule.
#[derive(Clone, Copy)]
pub(super) struct Row<'a> {
    pub(super) tree: Tree,
    pub(super) shape: Shape,
    pub(super) entries: usize,
    /// The digest of the top, and so of all nodes.
    pub(super) top: &'a str,
}

/// Trees of the keys of one byte 00, 01 and on, without values. A row has the number of the tree, that
/// of the shape, the number of entries, and the digest of the top.
pub(super) const BYTES: &str = "\
1 1 0 67abdd721024f0ff4e0b3f4c2fc13bc5bad42d0b7851d456d88d203d15aaa450
2 1 0 26b25d457597a7b0463f9620f666dd10aa2c4373a505967c7c8d70922a2d6ece
1 2 0 67abdd721024f0ff4e0b3f4c2fc13bc5bad42d0b7851d456d88d203d15aaa450
2 2 0 26b25d457597a7b0463f9620f666dd10aa2c4373a505967c7c8d70922a2d6ece
1 1 1 44600274cb583d5362c94c4f6bce7791e62cb571644fee1c44e2f222bb85dd8d
2 1 1 b7252a1467163712f0abbc5818a2a41c0d61d5f5376255410d98ffc0c054842d
1 2 1 44600274cb583d5362c94c4f6bce7791e62cb571644fee1c44e2f222bb85dd8d
2 2 1 b7252a1467163712f0abbc5818a2a41c0d61d5f5376255410d98ffc0c054842d
1 1 2 ae56552f22bde33824cc1ca8dde8372e165afd9e2075534e05521266533da59e
2 1 2 6065bb50b90a231d38eb4019b49710cb64bba12875e85f0818df83db6034f36a
1 2 2 ae56552f22bde33824cc1ca8dde8372e165afd9e2075534e05521266533da59e
2 2 2 6065bb50b90a231d38eb4019b49710cb64bba12875e85f0818df83db6034f36a
1 1 3 92756b0fe39e25ca92b16114a51a3517e9caf1e71ef23839f288bd439192406b
2 1 3 d9c326a56bfeca48cec5dd80863bcd2967bbc7de3efbf4d7e0ef9ef01ee64fc7
1 2 3 92756b0fe39e25ca92b16114a51a3517e9caf1e71ef23839f288bd439192406b
2 2 3 d9c326a56bfeca48cec5dd80863bcd2967bbc7de3efbf4d7e0ef9ef01ee64fc7
1 1 64 22419c5ccc507d8ae21c28ea25361f9b34af18eb3db85bbe32215e27689b73b7
2 1 64 27c6dc26b531a59c99ba34a6c73199f884ea34143d67e3d42952ad5b507544aa
1 2 64 c5d0a6ec474b9d27faf5a528d44c39703359ec9de44d95baacbd90dba93882cb
2 2 64 6e56a92e1da26cc072e4e3cd0561d8ed6c46d4022c704815a274e4cbba273d9f
1 1 65 563710a7b102d07ac20517305c27fc748d33ab190a3999365110d995a3e31ad2
2 1 65 862f81b59ecd60b2305c967b9a5478337c3887a8cef47f593830d4d446390bc2
3 1 65 e198d8ddcfad031a18adfbeb53d75ca6b1c45d60d28f46986624cf3110e94f26
4 1 65 e3af153dc0b937038cecfe23d992a0c1ab0b3af07e472ef98d66cec2e2972e46
1 2 65 8d6a5a4d3d7007a4cb257aa1dd5e66f3dbbc4b04b2940de8fc5f18085323e568
2 2 65 8a80fc8249e4a124a45cda07b7ab8274649ecf859c0c73a0ccfee18fcd23ae09
3 2 65 9ad353e5c8512ddb3808fac9a6717f343e20c04f7be9d139a55621b75403d910
4 2 65 b85c88f742dcab2a9f53d008e5a9042b3424de41c741777c2c802648ef370a5d
1 1 256 3ffa347fe0094a1740666b5ba5d782add875993b3d2652a0282b4ad096e16437
2 1 256 614a8b07bb0a49483cd8ea6dc0bb49fb41cbd5613fd26f984a1302264b22c721
1 2 256 1ccb5c3a9156e61ca7d3a31af477435ea2cb5d864a46fae71f390c8e2f9e9536
2 2 256 da2954f4747246c0f022aa7cc36349479aa9978c02e75ea20379eecf1c42bad2";

/// The same of the keys of 8 bytes that are the numbers from 0, the greatest byte first.
pub(super) const NUMBERS: &str = "\
1 1 4096 b7c0e355808d67dd0d5234150024207d97776a5e793a26f4f519000bd5acde86
2 1 4096 6077c94ae8e36ffe04347e62b7060f41e9e0656a0f95925867e616f612ee7883
1 2 4096 692d037f0abce29bf585206d4a1519296312fbfb8a56ffcb13c1afcea27a3bcf
2 2 4096 328f5f276838102ceb85e28493966d40bbcdc5bae41655e8e0b1e4accb92cb6e
1 1 4097 4311661fdbe4202bffd2fd505ef198fbc889d90961a8fc124a271fb1976b6439
2 1 4097 fd366adbbefe39ad7c4f5a8f7d46b119a8276675f24311de89a89781e3e85284
1 2 4097 563cd1d0eda45e049829710c7e22b109f3993a5dcc05b4b8347e444632b90650
2 2 4097 f385036e26ea703dc07f1bb1c7f22d3fd63ce726d8e08f75e1b01304520241ef
1 1 100000 0cf101a00b00d9db1a80f510eb6d42b377bb7ce358dcf242c8b30fcfe76e930d
2 1 100000 f6e6433a5090eed0e3977c4a582e68c92001a7d2da23ea5fb88a79500d308603
1 2 100000 23671d0b2648807bed83c1232f7a01c0b75d31db387d20c0af9c0bd318d8feb0
2 2 100000 6ef48534a925121d0412eeea0f400e5e7af99886014065e7575985b8d40dcc56";

/// The same of these keys, each with the decimal digits of its number's square as its value.
pub(super) const VALUES: &str = "\
1 1 1000 f1a1ddfb4995bee1f9d7240fc503f1a67a48ff141d31e29d0261a57f6cf55694
2 1 1000 29a6efe02684691d13be3648a8a2cfffd1e8b19c692c97ccec1ecf7346dace55
3 1 1000 57912cd8a2b68f23100d058a6c4d9912ccb19503e619564845a5105177ac4e1d
4 1 1000 e16c5233b2fc681ca4f8b256866c846af003186261cd6af94afe38d6e9c5c2da
1 2 1000 05f98173a238aab854ddce56cecdd01dd9167a7635373a8b39f7408e6640f21b
2 2 1000 599e5650c00c3abcc8379be7289d0f89273f1b4cd66f9f55bc2f6071656af6af
3 2 1000 ef992b4bdcb9220c287cf9dffe926b80fecea17f8d26a4728c16f64e6e6af551
4 2 1000 1cda86074f9371f2d9ba017002b63157a1084090e4aa5e831df16ddd8c63f358
1 1 20000 d0fae752d03d8e1e19a112b6452c1ee013b513eadfa253288bb4b2694ad2eceb
2 1 20000 489ca6867f65d8e303889450c995478c9a0a22a460419096010299daf8244cbc
1 2 20000 26c966338dde47714a5da7e7310aa1a86a86f0f41b21e7b0f5b5ed77af4e0f0c
2 2 20000 53b9846b5ec246f2ef67141cfa3c727b0ef66cc626d3f738961e1f8dac818f28";

/// Trees of the second shape: of which list, the keys of one byte each, without values, and the digest of
/// the top. The keys 0a, 73 and 7b are marked.
pub(super) const MARKED: [(Tree, &[u8], &str); 9] = [
    // Two entries make one leaf, whichever is marked.
    (
        Tree::Tags,
        b"\x00\x01",
        "6065bb50b90a231d38eb4019b49710cb64bba12875e85f0818df83db6034f36a",
    ),
    (
        Tree::Tags,
        b"\x0a\x0b",
        "e8b51833f632210e3a2f0759ba62ce024904d458be4610b20bd46f3384b99bc3",
    ),
    (
        Tree::Tags,
        b"\x00\x0a",
        "df531b8dbe9887e1725eff64b25478c6ebe04d6fc620d500668ab3bb49e9ce5f",
    ),
    (
        Tree::Tags,
        b"\x0a\x73",
        "9a590422561e0b89b7b420473caa736b05f737a1f0560aeafa05a9cc2a0430ec",
    ),
    // A piece ends after its second item where that is marked, and not after its first.
    (
        Tree::Tags,
        b"\x00\x0a\x0b",
        "13a52f9822e4a69549e0a0a1ef2e538ee902a93be50c493b8282c72cdb826e42",
    ),
    (
        Tree::Tags,
        b"\x0a\x0b\x0c",
        "7a2034e4357e00634e3f27a65d02e5f230f40c6c812f98afa1f523f0d1ee226d",
    ),
    (
        Tree::Tags,
        b"\x0a\x73\x7b",
        "e3230fe2f7163cdb6a53ded75dab9a936d8accc950de51d906405ada2f9d3435",
    ),
    // Of 65 entries without a mark 64 make the first leaf.
    (
        Tree::Tags,
        b"\x00\x01\x02\x03\x04\x05\x06\x07\x08\x09\x0b\x0c\x0d\x0e\x0f\x10\x11\x12\x13\x14\x15\x16\x17\x18\x19\x1a\x1b\x1c\x1d\x1e\x1f\x20\x21\x22\x23\x24\x25\x26\x27\x28\x29\x2a\x2b\x2c\x2d\x2e\x2f\x30\x31\x32\x33\x34\x35\x36\x37\x38\x39\x3a\x3b\x3c\x3d\x3e\x3f\x40\x41",
        "ddab64082da47339b316fbd12d6c089e6af6a8b2ed10077338faf36b7133b985",
    ),
    // The worked tree of docs/FORMATS.md.
    (
        Tree::Objects,
        b"\x09\x0a\x0b",
        "fc4cfbb8206c1c9fc900051898370a35d77951a3ee2009605d817b556281fd3a",
    ),
];

/// The tree of this number.
fn tree_of(number: &str) -> Option<Tree> {
    match number {
        "1" => Some(Tree::Objects),
        "2" => Some(Tree::Tags),
        "3" => Some(Tree::Cells),
        "4" => Some(Tree::Backs),
        _ => None,
    }
}

/// The shape of this number.
fn shape_of(number: &str) -> Option<Shape> {
    match number {
        "1" => Some(Shape::One),
        "2" => Some(Shape::Two),
        _ => None,
    }
}

/// The row that this line has.
pub(super) fn row_of(line: &str) -> Option<Row<'_>> {
    let (tree, rest) = line.split_once(' ')?;
    let (shape, rest) = rest.split_once(' ')?;
    let (entries, top) = rest.split_once(' ')?;
    Some(Row {
        tree: tree_of(tree)?,
        shape: shape_of(shape)?,
        entries: entries.parse().ok()?,
        top,
    })
}
