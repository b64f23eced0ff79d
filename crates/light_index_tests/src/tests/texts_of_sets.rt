//! Sets of objects as OPL: those of `tests/vectors` that have some.

pub(super) const ALL_KINDS: &str = "\
n1 v1 dV c5 t2020-01-02T03:04:05Z i7 uAnn Thighway=crossing x13.4 y52.5\n\
n2 x13.4000001 y52.5\n\
w10 Thighway=primary,name=A%20%B Nn1,n2,n1\n\
r100 Ttype=route Mw10@outer,n99@stop,r100@\n\
";

pub(super) const DATELINE: &str = "\
n5 x180 y0\n\
n6 x-180 y0\n\
n7 x0 y0\n\
";

pub(super) const TOWN: &str = "\
n1 v2 dV c7 t2021-02-11T10:20:31Z i1 umap%20%per Thighway=crossing x13.4010000 y52.5000000\n\
n2 v3 dV c14 t2021-03-11T10:20:32Z i2 umap%20%per T x13.4020000 y52.5000000\n\
n3 v1 dV c21 t2021-04-11T10:20:33Z i3 umap%20%per T x13.4030000 y52.5000000\n\
n4 v2 dV c28 t2021-05-11T10:20:34Z i0 umap%20%per T x13.4040000 y52.5000000\n\
n5 v3 dV c35 t2021-06-11T10:20:35Z i1 umap%20%per Thighway=crossing,crossing=marked x13.4050000 y52.5000000\n\
n6 v1 dV c42 t2021-07-11T10:20:36Z i2 umap%20%per T x13.4000000 y52.5010000\n\
n7 v2 dV c49 t2021-08-11T10:20:37Z i3 umap%20%per Tamenity=cafe,name=Caf%e9% x13.4010000 y52.5010000\n\
n8 v3 dV c56 t2021-09-11T10:20:38Z i0 umap%20%per Tamenity=bench x13.4020000 y52.5010000\n\
n9 v1 dV c63 t2021-01-11T10:20:39Z i1 umap%20%per T x13.4030000 y52.5010000\n\
n10 v2 dV c70 t2021-02-11T10:20:30Z i2 umap%20%per T x13.4040000 y52.5010000\n\
n11 v3 dV c77 t2021-03-11T10:20:31Z i3 umap%20%per T x13.4050000 y52.5010000\n\
n12 v1 dV c84 t2021-04-11T10:20:32Z i0 umap%20%per Tamenity=cafe,name=A%2c%%20%B x13.4000000 y52.5020000\n\
n13 v2 dV c91 t2021-05-11T10:20:33Z i1 umap%20%per T x13.4010000 y52.5020000\n\
n14 v3 dV c98 t2021-06-11T10:20:34Z i2 umap%20%per T x13.4020000 y52.5020000\n\
n15 v1 dV c105 t2021-07-11T10:20:35Z i3 umap%20%per T x13.4030000 y52.5020000\n\
n16 v2 dV c112 t2021-08-11T10:20:36Z i0 umap%20%per T x13.4040000 y52.5020000\n\
n17 v3 dV c119 t2021-09-11T10:20:37Z i1 umap%20%per T x13.4050000 y52.5020000\n\
n18 v1 dV c126 t2021-01-11T10:20:38Z i2 umap%20%per T x13.4000000 y52.5030000\n\
n19 v2 dV c133 t2021-02-11T10:20:39Z i3 umap%20%per Tname=%1f600% x13.4010000 y52.5030000\n\
n20 v3 dV c140 t2021-03-11T10:20:30Z i0 umap%20%per T x13.4020000 y52.5030000\n\
n21 v1 dV c147 t2021-04-11T10:20:31Z i1 umap%20%per T x13.4030000 y52.5030000\n\
n22 v2 dV c154 t2021-05-11T10:20:32Z i2 umap%20%per T x13.4040000 y52.5030000\n\
n23 v3 dV c161 t2021-06-11T10:20:33Z i3 umap%20%per T x13.4050000 y52.5030000\n\
n24 v1 dV c168 t2021-07-11T10:20:34Z i0 umap%20%per Tempty= x13.4000000 y52.5040000\n\
w10 v1 Thighway=residential,name=First Nn1,n2,n3,n4,n5\n\
w11 v1 Thighway=residential Nn5,n11,n17,n23\n\
w12 v1 Tbuilding=yes Nn7,n8,n14,n13,n7\n\
w13 v1 Thighway=primary,name=A%20%B,oneway=yes Nn23,n22,n21,n99\n\
w14 v1 T N\n\
w24 v1 Thighway=footway Nn1,n7,n13,n19\n\
r1 v2 Ttype=route,route=bus Mw10@forward,w11@,n5@stop,n99@stop\n\
r2 v2 Ttype=site Mr1@,n7@entrance,w12@outer\n\
r3 v2 Ttype=collection Mr2@,r4@part,w77@\n\
r4 v2 Ttype=collection Mr3@part\n\
r10 v2 T M\n\
r24 v2 Ttype=multipolygon Mw12@outer,w12@outer,n24@%25%\n\
";

pub(super) const MANY: &str = "\
n1 Ta=1 x-19 y-24.2\n\
n2 Ta=1 x-18 y-23.3\n\
n3 Ta=1,b=2 x-17 y-22.4\n\
n4 Ta=1 x-16 y-21.5\n\
n5 Ta=1,b=1,c=3 x-15 y-20.6\n\
n6 Ta=1,b=2 x-14 y-19.7\n\
n7 Ta=1 x-13 y-18.8\n\
n8 Ta=1 x-12 y-17.9\n\
n9 Ta=1,b=2 x-11 y-16.1\n\
n10 Ta=1,b=1,c=3 x-10 y-15.2\n\
n11 Ta=1 x-9 y-14.3\n\
n12 Ta=1,b=2 x-8 y-13.4\n\
n13 Ta=1 x-7 y-12.5\n\
n14 Ta=1 x-6 y-11.6\n\
n15 Ta=1,b=2 x-5 y-10.7\n\
n16 Ta=1 x-4 y-9.8\n\
n17 Ta=1 x-3 y-8.9\n\
n18 Ta=1,b=2 x-2 y-7.1\n\
n19 Ta=1 x-1 y-6.2\n\
n20 Ta=1,b=1,c=3 x0 y-5.3\n\
n21 Ta=1,b=2 x1 y-4.4\n\
n22 Ta=1 x2 y-3.5\n\
n23 Ta=1 x3 y-2.6\n\
n24 Ta=1,b=2 x4 y-1.7\n\
n25 Ta=1,b=1,c=3 x5 y0.8\n\
n26 Ta=1 x6 y1.9\n\
n27 Ta=1,b=2 x7 y2.1\n\
n28 Ta=1 x8 y3.2\n\
n29 Ta=1 x9 y4.3\n\
n30 Ta=1,b=2 x10 y5.4\n\
n31 Ta=1 x11 y6.5\n\
n32 Ta=1 x12 y7.6\n\
n33 Ta=1,b=2 x13 y8.7\n\
n34 Ta=1 x14 y9.8\n\
n35 Ta=1,b=1,c=3 x15 y10.9\n\
n36 Ta=1,b=2 x16 y11.1\n\
n37 Ta=1 x17 y12.2\n\
n38 Ta=1 x18 y13.3\n\
n39 Ta=1,b=2 x19 y14.4\n\
n40 Ta=1,b=1,c=3 x-20 y15.5\n\
n41 Ta=1 x-19 y16.6\n\
n42 Ta=1,b=2 x-18 y17.7\n\
n43 Ta=1 x-17 y18.8\n\
n44 Ta=1 x-16 y19.9\n\
n45 Ta=1,b=2 x-15 y20.1\n\
n46 Ta=1 x-14 y21.2\n\
n47 Ta=1 x-13 y22.3\n\
n48 Ta=1,b=2 x-12 y23.4\n\
n49 Ta=1 x-11 y24.5\n\
n50 Ta=1,b=1,c=3 x-10 y-25.6\n\
n51 Ta=1,b=2 x-9 y-24.7\n\
n52 Ta=1 x-8 y-23.8\n\
n53 Ta=1 x-7 y-22.9\n\
n54 Ta=1,b=2 x-6 y-21.1\n\
n55 Ta=1,b=1,c=3 x-5 y-20.2\n\
n56 Ta=1 x-4 y-19.3\n\
n57 Ta=1,b=2 x-3 y-18.4\n\
n58 Ta=1 x-2 y-17.5\n\
n59 Ta=1 x-1 y-16.6\n\
n60 Ta=1,b=2 x0 y-15.7\n\
n61 Ta=1 x1 y-14.8\n\
n62 Ta=1 x2 y-13.9\n\
n63 Ta=1,b=2 x3 y-12.1\n\
n64 Ta=1 x4 y-11.2\n\
n65 Ta=1,b=1,c=3 x5 y-10.3\n\
n66 Ta=1,b=2 x6 y-9.4\n\
n67 Ta=1 x7 y-8.5\n\
n68 Ta=1 x8 y-7.6\n\
n69 Ta=1,b=2 x9 y-6.7\n\
n70 Ta=1,b=1,c=3 x10 y-5.8\n\
n71 Ta=1 x11 y-4.9\n\
n72 Ta=1,b=2 x12 y-3.1\n\
n73 Ta=1 x13 y-2.2\n\
n74 Ta=1 x14 y-1.3\n\
n75 Ta=1,b=2 x15 y0.4\n\
n76 Ta=1 x16 y1.5\n\
n77 Ta=1 x17 y2.6\n\
n78 Ta=1,b=2 x18 y3.7\n\
n79 Ta=1 x19 y4.8\n\
n80 Ta=1,b=1,c=3 x-20 y5.9\n\
n81 Ta=1,b=2 x-19 y6.1\n\
n82 Ta=1 x-18 y7.2\n\
n83 Ta=1 x-17 y8.3\n\
n84 Ta=1,b=2 x-16 y9.4\n\
n85 Ta=1,b=1,c=3 x-15 y10.5\n\
n86 Ta=1 x-14 y11.6\n\
n87 Ta=1,b=2 x-13 y12.7\n\
n88 Ta=1 x-12 y13.8\n\
n89 Ta=1 x-11 y14.9\n\
n90 Ta=1,b=2 x-10 y15.1\n\
n91 Ta=1 x-9 y16.2\n\
n92 Ta=1 x-8 y17.3\n\
n93 Ta=1,b=2 x-7 y18.4\n\
n94 Ta=1 x-6 y19.5\n\
n95 Ta=1,b=1,c=3 x-5 y20.6\n\
n96 Ta=1,b=2 x-4 y21.7\n\
n97 Ta=1 x-3 y22.8\n\
n98 Ta=1 x-2 y23.9\n\
n99 Ta=1,b=2 x-1 y24.1\n\
n100 Ta=1,b=1,c=3 x0 y-25.2\n\
n101 Ta=1 x1 y-24.3\n\
n102 Ta=1,b=2 x2 y-23.4\n\
n103 Ta=1 x3 y-22.5\n\
n104 Ta=1 x4 y-21.6\n\
n105 Ta=1,b=2 x5 y-20.7\n\
n106 Ta=1 x6 y-19.8\n\
n107 Ta=1 x7 y-18.9\n\
n108 Ta=1,b=2 x8 y-17.1\n\
n109 Ta=1 x9 y-16.2\n\
n110 Ta=1,b=1,c=3 x10 y-15.3\n\
n111 Ta=1,b=2 x11 y-14.4\n\
n112 Ta=1 x12 y-13.5\n\
n113 Ta=1 x13 y-12.6\n\
n114 Ta=1,b=2 x14 y-11.7\n\
n115 Ta=1,b=1,c=3 x15 y-10.8\n\
n116 Ta=1 x16 y-9.9\n\
n117 Ta=1,b=2 x17 y-8.1\n\
n118 Ta=1 x18 y-7.2\n\
n119 Ta=1 x19 y-6.3\n\
n120 Ta=1,b=2 x-20 y-5.4\n\
n121 Ta=1 x-19 y-4.5\n\
n122 Ta=1 x-18 y-3.6\n\
n123 Ta=1,b=2 x-17 y-2.7\n\
n124 Ta=1 x-16 y-1.8\n\
n125 Ta=1,b=1,c=3 x-15 y0.9\n\
n126 Ta=1,b=2 x-14 y1.1\n\
n127 Ta=1 x-13 y2.2\n\
n128 Ta=1 x-12 y3.3\n\
n129 Ta=1,b=2 x-11 y4.4\n\
n130 Ta=1,b=1,c=3 x-10 y5.5\n\
";
