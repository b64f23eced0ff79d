//! Rows of queries over small sets, which an independent program answered: the answer, and how many nodes it needs in
//! editions 1 and 2, the manifest counted.

/// A query, its answer, and the nodes that it needs in editions 1 and 2.
pub(super) type Row = (&'static str, &'static str, [usize; 2]);

/// Over no objects.
pub(super) const OVER_EMPTY: [Row; 5] = [
    ("", "", [1, 1]),
    ("node(1);out;", "", [2, 2]),
    ("node;out;", "", [2, 2]),
    ("nwr[\"a\"];out ids;", "", [2, 2]),
    (".a out;", "", [1, 1]),
];

/// Over two nodes, a way of them, and a relation of the way, of itself and of a node that isn't there.
pub(super) const OVER_ALL_KINDS: [Row; 35] = [
    ("", "", [1, 1]),
    (".a out;", "", [1, 1]),
    ("node(1);out;", "n1 Thighway=crossing x13.4 y52.5\n", [2, 2]),
    (
        "node(1);out meta;",
        "n1 v1 dV c5 t2020-01-02T03:04:05Z i7 uAnn Thighway=crossing x13.4 y52.5\n",
        [2, 2],
    ),
    (
        "node(2);out meta;",
        "n2 v0 dV c0 t i0 u T x13.4000001 y52.5\n",
        [2, 2],
    ),
    ("way(10);(._;>;);out ids;", "n1\nn2\nw10\n", [2, 2]),
    ("node(1);(node(2);._;);out ids;", "n2\n", [2, 2]),
    ("rel(100);>;out ids;", "n1\nn2\nw10\n", [2, 2]),
    ("rel(100);>>;out ids;", "n1\nn2\nw10\nr100\n", [2, 2]),
    ("rel(100);<;out ids;", "", [2, 2]),
    ("rel(100);<<;out ids;", "r100\n", [3, 3]),
    ("node(2);<;out ids;", "w10\nr100\n", [3, 3]),
    ("node(2);<<;out ids;", "w10\nr100\n", [3, 3]),
    ("rel(100);node(r);out ids;", "", [2, 2]),
    (
        "node(52.49999999999,13.40000004,52.6,13.5);out ids;",
        "n2\n",
        [2, 2],
    ),
    ("node[\"highway\"!=\"crossing\"];out ids;", "n2\n", [2, 2]),
    ("(node;-node[\"highway\"];);out ids;", "n2\n", [3, 3]),
    ("node(1);out ids;out skel;", "n1\nn1 x13.4 y52.5\n", [2, 2]),
    ("node(1);out ids 0;", "", [2, 2]),
    ("way(10);out skel;", "w10 Nn1,n2,n1\n", [2, 2]),
    (
        "rel(100)->.a;(way(r.a);node(w););out ids;",
        "n1\nn2\nw10\n",
        [2, 2],
    ),
    ("(node(1);node(2););out ids 1;", "n1\n", [2, 2]),
    (
        "nwr[\"name\"];out tags;",
        "w10 Thighway=primary,name=A%20%B\n",
        [3, 3],
    ),
    ("rel(100);rel(br);out ids;", "r100\n", [3, 3]),
    (".b out;", "", [1, 1]),
    ("node[\"highway\"];out ids;", "n1\n", [2, 2]),
    (
        "node[\"highway\"];out;",
        "n1 Thighway=crossing x13.4 y52.5\n",
        [3, 3],
    ),
    ("nwr(100);out ids;", "r100\n", [2, 2]),
    (
        "nwr;out meta;",
        "n1 v1 dV c5 t2020-01-02T03:04:05Z i7 uAnn Thighway=crossing x13.4 y52.5\nn2 v0 dV c0 t i0 u T x13.4000001 y52.5\nw10 v0 dV c0 t i0 u Thighway=primary,name=A%20%B Nn1,n2,n1\nr100 v0 dV c0 t i0 u Ttype=route Mw10@outer,n99@stop,r100@\n",
        [2, 2],
    ),
    (
        "way[highway=primary][name];out tags;",
        "w10 Thighway=primary,name=A%20%B\n",
        [3, 3],
    ),
    ("rel(r);out ids;", "", [1, 1]),
    ("node(id:1,2,99);out skel 1;", "n1 x13.4 y52.5\n", [2, 2]),
    ("node(1);way(bn);out ids;", "w10\n", [3, 3]),
    ("way(bn);out;", "", [1, 1]),
    (
        "nwr(1);nwr(10);out;",
        "w10 Thighway=primary,name=A%20%B Nn1,n2,n1\n",
        [2, 2],
    ),
];

/// Over nodes on the equator, at the 180th meridian from both sides and at longitude 0.
pub(super) const OVER_DATELINE: [Row; 6] = [
    ("node(-1,179,1,-179);out ids;", "n5\nn6\n", [2, 2]),
    ("node(-1,-180,1,180);out ids;", "n5\nn6\nn7\n", [2, 2]),
    ("node(0,0,0,0);out;", "n7 T x0 y0\n", [3, 3]),
    ("node(-90,180,90,180);out ids;", "n5\n", [2, 2]),
    ("node(0.00000001,-180,1,180);out ids;", "", [2, 2]),
    ("node(-1,-0.00000001,1,0.00000001);out ids;", "n7\n", [2, 2]),
];

/// Over one node.
pub(super) const OVER_ONE: [Row; 5] = [
    ("node(1);out meta;", "n1 v0 dV c0 t i0 u T x0 y0\n", [2, 2]),
    ("node(2);out;", "", [2, 2]),
    ("node;out ids;", "n1\n", [2, 2]),
    ("nwr;out skel;", "n1 x0 y0\n", [2, 2]),
    ("node(-90,-180,90,180);out ids;", "n1\n", [2, 2]),
];

/// Over nodes, ways and relations in relations with a cycle.
pub(super) const OVER_TOWN: [Row; 34] = [
    (
        "node[amenity=cafe];out;",
        "n7 Tamenity=cafe,name=Caf%e9% x13.401 y52.501\nn12 Tamenity=cafe,name=A%2c%%20%B x13.4 y52.502\n",
        [3, 3],
    ),
    (
        "node[amenity];out tags;",
        "n7 Tamenity=cafe,name=Caf%e9%\nn8 Tamenity=bench\nn12 Tamenity=cafe,name=A%2c%%20%B\n",
        [3, 3],
    ),
    ("nwr[name];out ids;", "n7\nn12\nn19\nw10\nw13\n", [2, 2]),
    (
        "way[highway];>;out ids;",
        "n1\nn2\nn3\nn4\nn5\nn7\nn11\nn13\nn17\nn19\nn21\nn22\nn23\n",
        [3, 3],
    ),
    ("way(10);node(w);out ids;", "n1\nn2\nn3\nn4\nn5\n", [2, 2]),
    ("node(7);<;out ids;", "w12\nw24\nr2\nr24\n", [3, 3]),
    ("node(7);<<;out ids;", "w12\nw24\nr2\nr3\nr4\nr24\n", [3, 3]),
    (
        "rel(3);>>;out ids;",
        "n1\nn2\nn3\nn4\nn5\nn7\nn8\nn11\nn13\nn14\nn17\nn23\nw10\nw11\nw12\nr1\nr2\nr3\nr4\n",
        [2, 2],
    ),
    ("rel(3);>;out ids;", "", [2, 2]),
    ("rel(4);<<;out ids;", "r3\nr4\n", [3, 3]),
    ("way(12);rel(bw);out ids;", "r2\nr24\n", [3, 3]),
    ("rel(1);rel(br);out ids;", "r2\n", [3, 3]),
    ("node(5);rel(bn);out ids;", "r1\n", [3, 3]),
    ("rel(2);way(r);out ids;", "w12\n", [2, 2]),
    ("rel(2);rel(r);out ids;", "r1\n", [2, 2]),
    ("rel(2);node(r);out ids;", "n7\n", [2, 2]),
    ("(way[highway];-way[name];);out ids;", "w11\nw24\n", [2, 2]),
    (
        "node(52.5005,13.4005,52.5025,13.4035);out ids;",
        "n7\nn8\nn9\nn13\nn14\nn15\n",
        [2, 4],
    ),
    (
        "node(52.501,13.401,52.502,13.403)[amenity!=bench];out ids;",
        "n7\nn9\nn13\nn14\nn15\n",
        [3, 5],
    ),
    ("way[highway=residential][!name];out ids;", "w11\n", [3, 3]),
    (
        "(node[amenity];way[building];);(._;>;);out skel;",
        "n7 x13.401 y52.501\nn8 x13.402 y52.501\nn12 x13.4 y52.502\nn13 x13.401 y52.502\nn14 x13.402 y52.502\nw12 Nn7,n8,n14,n13,n7\n",
        [3, 3],
    ),
    (
        "node(24)->.x;way(24)->.y;(.x;.y;rel(24););out ids;",
        "n24\nw24\nr24\n",
        [2, 2],
    ),
    (
        "rel(24);out;",
        "r24 Ttype=multipolygon Mw12@outer,w12@outer,n24@%25%\n",
        [2, 2],
    ),
    (
        "(rel(3);>>;)->.all;node.all[name];out tags;",
        "n7 Tamenity=cafe,name=Caf%e9%\n",
        [2, 2],
    ),
    (
        "node(id:1,7,24)->.a;(way(bn.a);rel(bn.a););out ids;",
        "w10\nw12\nw24\nr2\nr24\n",
        [3, 3],
    ),
    ("way[highway];out ids qt 2;", "w10\nw11\n", [2, 2]),
    (
        "node[crossing=marked][highway=crossing];out ids;",
        "n5\n",
        [3, 3],
    ),
    ("(node(1);-(node(2);-node(2);););out ids;", "n1\n", [2, 2]),
    (
        "node[\"name\"=\"\\u0043af\\u00e9\"];out ids;",
        "n7\n",
        [2, 2],
    ),
    ("way(14);>;out;", "", [2, 2]),
    ("rel(10);>>;out;", "", [2, 2]),
    (
        "nwr(24)[type];out tags;",
        "r24 Ttype=multipolygon\n",
        [2, 2],
    ),
    ("node(1);node._(1);out ids;", "n1\n", [2, 2]),
    ("way(13);node(w);out ids;", "n21\nn22\nn23\n", [2, 2]),
];

/// Over 130 nodes with shared tags.
pub(super) const OVER_MANY: [Row; 16] = [
    (
        "node[a];out ids;",
        "n1\nn2\nn3\nn4\nn5\nn6\nn7\nn8\nn9\nn10\nn11\nn12\nn13\nn14\nn15\nn16\nn17\nn18\nn19\nn20\nn21\nn22\nn23\nn24\nn25\nn26\nn27\nn28\nn29\nn30\nn31\nn32\nn33\nn34\nn35\nn36\nn37\nn38\nn39\nn40\nn41\nn42\nn43\nn44\nn45\nn46\nn47\nn48\nn49\nn50\nn51\nn52\nn53\nn54\nn55\nn56\nn57\nn58\nn59\nn60\nn61\nn62\nn63\nn64\nn65\nn66\nn67\nn68\nn69\nn70\nn71\nn72\nn73\nn74\nn75\nn76\nn77\nn78\nn79\nn80\nn81\nn82\nn83\nn84\nn85\nn86\nn87\nn88\nn89\nn90\nn91\nn92\nn93\nn94\nn95\nn96\nn97\nn98\nn99\nn100\nn101\nn102\nn103\nn104\nn105\nn106\nn107\nn108\nn109\nn110\nn111\nn112\nn113\nn114\nn115\nn116\nn117\nn118\nn119\nn120\nn121\nn122\nn123\nn124\nn125\nn126\nn127\nn128\nn129\nn130\n",
        [5, 10],
    ),
    (
        "node[a][b];out ids;",
        "n3\nn5\nn6\nn9\nn10\nn12\nn15\nn18\nn20\nn21\nn24\nn25\nn27\nn30\nn33\nn35\nn36\nn39\nn40\nn42\nn45\nn48\nn50\nn51\nn54\nn55\nn57\nn60\nn63\nn65\nn66\nn69\nn70\nn72\nn75\nn78\nn80\nn81\nn84\nn85\nn87\nn90\nn93\nn95\nn96\nn99\nn100\nn102\nn105\nn108\nn110\nn111\nn114\nn115\nn117\nn120\nn123\nn125\nn126\nn129\nn130\n",
        [8, 13],
    ),
    (
        "node[a][c];out ids;",
        "n5\nn10\nn20\nn25\nn35\nn40\nn50\nn55\nn65\nn70\nn80\nn85\nn95\nn100\nn110\nn115\nn125\nn130\n",
        [9, 13],
    ),
    (
        "node[a=1][b=2];out ids;",
        "n3\nn6\nn9\nn12\nn15\nn18\nn21\nn24\nn27\nn30\nn33\nn36\nn39\nn42\nn45\nn48\nn51\nn54\nn57\nn60\nn63\nn66\nn69\nn72\nn75\nn78\nn81\nn84\nn87\nn90\nn93\nn96\nn99\nn102\nn105\nn108\nn111\nn114\nn117\nn120\nn123\nn126\nn129\n",
        [8, 13],
    ),
    ("node[b=1][c=3];out ids 3;", "n5\nn10\nn20\n", [7, 10]),
    (
        "node[a][b][c];out ids;",
        "n5\nn10\nn20\nn25\nn35\nn40\nn50\nn55\nn65\nn70\nn80\nn85\nn95\nn100\nn110\nn115\nn125\nn130\n",
        [9, 13],
    ),
    (
        "node[b][b];out ids;",
        "n3\nn5\nn6\nn9\nn10\nn12\nn15\nn18\nn20\nn21\nn24\nn25\nn27\nn30\nn33\nn35\nn36\nn39\nn40\nn42\nn45\nn48\nn50\nn51\nn54\nn55\nn57\nn60\nn63\nn65\nn66\nn69\nn70\nn72\nn75\nn78\nn80\nn81\nn84\nn85\nn87\nn90\nn93\nn95\nn96\nn99\nn100\nn102\nn105\nn108\nn110\nn111\nn114\nn115\nn117\nn120\nn123\nn125\nn126\nn129\nn130\n",
        [7, 12],
    ),
    ("node[a=9][b];out ids;", "", [3, 4]),
    ("node(65);out;", "n65 Ta=1,b=1,c=3 x5 y-10.3\n", [3, 3]),
    ("node(64);out ids;", "n64\n", [3, 3]),
    ("node(131);out;", "", [2, 2]),
    (
        "node[b!=2][a];out ids;",
        "n1\nn2\nn4\nn5\nn7\nn8\nn10\nn11\nn13\nn14\nn16\nn17\nn19\nn20\nn22\nn23\nn25\nn26\nn28\nn29\nn31\nn32\nn34\nn35\nn37\nn38\nn40\nn41\nn43\nn44\nn46\nn47\nn49\nn50\nn52\nn53\nn55\nn56\nn58\nn59\nn61\nn62\nn64\nn65\nn67\nn68\nn70\nn71\nn73\nn74\nn76\nn77\nn79\nn80\nn82\nn83\nn85\nn86\nn88\nn89\nn91\nn92\nn94\nn95\nn97\nn98\nn100\nn101\nn103\nn104\nn106\nn107\nn109\nn110\nn112\nn113\nn115\nn116\nn118\nn119\nn121\nn122\nn124\nn125\nn127\nn128\nn130\n",
        [9, 17],
    ),
    (
        "node[!b];out ids;",
        "n1\nn2\nn4\nn7\nn8\nn11\nn13\nn14\nn16\nn17\nn19\nn22\nn23\nn26\nn28\nn29\nn31\nn32\nn34\nn37\nn38\nn41\nn43\nn44\nn46\nn47\nn49\nn52\nn53\nn56\nn58\nn59\nn61\nn62\nn64\nn67\nn68\nn71\nn73\nn74\nn76\nn77\nn79\nn82\nn83\nn86\nn88\nn89\nn91\nn92\nn94\nn97\nn98\nn101\nn103\nn104\nn106\nn107\nn109\nn112\nn113\nn116\nn118\nn119\nn121\nn122\nn124\nn127\nn128\n",
        [5, 8],
    ),
    (
        "node(-25,-20,0,0);out ids;",
        "n1\nn2\nn3\nn4\nn5\nn6\nn7\nn8\nn9\nn10\nn11\nn12\nn13\nn14\nn15\nn16\nn17\nn18\nn19\nn20\nn51\nn52\nn53\nn54\nn55\nn56\nn57\nn58\nn59\nn60\nn120\nn121\nn122\nn123\nn124\n",
        [4, 5],
    ),
    (
        "node(-25,-20,0,0)[c];out ids;",
        "n5\nn10\nn20\nn55\n",
        [8, 11],
    ),
    (
        "node[c];node._[b=1];out ids;",
        "n5\nn10\nn20\nn25\nn35\nn40\nn50\nn55\nn65\nn70\nn80\nn85\nn95\nn100\nn110\nn115\nn125\nn130\n",
        [8, 11],
    ),
];
