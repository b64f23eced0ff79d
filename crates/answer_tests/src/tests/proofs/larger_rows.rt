//! Rows of queries over larger sets and their proofs, as an independent program made them.

use super::rows::Row;

/// Over a town.
pub(super) const OVER_TOWN: [Row; 34] = [
    (
        "node[amenity=cafe];out;",
        "3 3776 07a42925bd98c204a603ede116d548aa624679204ad89fbf74a298853e70e7d5",
        "3 3784 1dbca77394f71efeb31b9ca9a9f35711f29fb00400368a3a8095e730847354d8",
    ),
    (
        "node[amenity];out tags;",
        "3 3776 07a42925bd98c204a603ede116d548aa624679204ad89fbf74a298853e70e7d5",
        "3 3784 1dbca77394f71efeb31b9ca9a9f35711f29fb00400368a3a8095e730847354d8",
    ),
    (
        "nwr[name];out ids;",
        "2 839 a38cfafbcde19c965651da47cbca8c4565b9b255745aa90170c11c0c042ea689",
        "2 847 46ea5a6c3899433ad4be91041035d77ddc5175adde7bb7fae4017fc1387237f8",
    ),
    (
        "way[highway];>;out ids;",
        "3 3776 07a42925bd98c204a603ede116d548aa624679204ad89fbf74a298853e70e7d5",
        "3 3784 1dbca77394f71efeb31b9ca9a9f35711f29fb00400368a3a8095e730847354d8",
    ),
    (
        "way(10);node(w);out ids;",
        "2 3083 d85214be8817c9736db984a364052547cf3df011b8d4f6fe1eb5bbefbc96b3ca",
        "2 3091 def9247b87ca5fcbdece5da9b109ed632c41281434b8f847618d1ddad2e9c8de",
    ),
    (
        "node(7);<;out ids;",
        "3 3907 e3aa3839ce9cb129ef132a32fa504d07bda83be693f5265c187bd4c37221f9e5",
        "3 3915 b064b97b230b41ba1797e482d4913dded7f8ce68f9fa5a2f110027716a25a500",
    ),
    (
        "node(7);<<;out ids;",
        "3 3907 e3aa3839ce9cb129ef132a32fa504d07bda83be693f5265c187bd4c37221f9e5",
        "3 3915 b064b97b230b41ba1797e482d4913dded7f8ce68f9fa5a2f110027716a25a500",
    ),
    (
        "rel(3);>>;out ids;",
        "2 3083 d85214be8817c9736db984a364052547cf3df011b8d4f6fe1eb5bbefbc96b3ca",
        "2 3091 def9247b87ca5fcbdece5da9b109ed632c41281434b8f847618d1ddad2e9c8de",
    ),
    (
        "rel(3);>;out ids;",
        "2 3083 d85214be8817c9736db984a364052547cf3df011b8d4f6fe1eb5bbefbc96b3ca",
        "2 3091 def9247b87ca5fcbdece5da9b109ed632c41281434b8f847618d1ddad2e9c8de",
    ),
    (
        "rel(4);<<;out ids;",
        "3 3907 e3aa3839ce9cb129ef132a32fa504d07bda83be693f5265c187bd4c37221f9e5",
        "3 3915 b064b97b230b41ba1797e482d4913dded7f8ce68f9fa5a2f110027716a25a500",
    ),
    (
        "way(12);rel(bw);out ids;",
        "3 3907 e3aa3839ce9cb129ef132a32fa504d07bda83be693f5265c187bd4c37221f9e5",
        "3 3915 b064b97b230b41ba1797e482d4913dded7f8ce68f9fa5a2f110027716a25a500",
    ),
    (
        "rel(1);rel(br);out ids;",
        "3 3907 e3aa3839ce9cb129ef132a32fa504d07bda83be693f5265c187bd4c37221f9e5",
        "3 3915 b064b97b230b41ba1797e482d4913dded7f8ce68f9fa5a2f110027716a25a500",
    ),
    (
        "node(5);rel(bn);out ids;",
        "3 3907 e3aa3839ce9cb129ef132a32fa504d07bda83be693f5265c187bd4c37221f9e5",
        "3 3915 b064b97b230b41ba1797e482d4913dded7f8ce68f9fa5a2f110027716a25a500",
    ),
    (
        "rel(2);way(r);out ids;",
        "2 3083 d85214be8817c9736db984a364052547cf3df011b8d4f6fe1eb5bbefbc96b3ca",
        "2 3091 def9247b87ca5fcbdece5da9b109ed632c41281434b8f847618d1ddad2e9c8de",
    ),
    (
        "rel(2);rel(r);out ids;",
        "2 3083 d85214be8817c9736db984a364052547cf3df011b8d4f6fe1eb5bbefbc96b3ca",
        "2 3091 def9247b87ca5fcbdece5da9b109ed632c41281434b8f847618d1ddad2e9c8de",
    ),
    (
        "rel(2);node(r);out ids;",
        "2 3083 d85214be8817c9736db984a364052547cf3df011b8d4f6fe1eb5bbefbc96b3ca",
        "2 3091 def9247b87ca5fcbdece5da9b109ed632c41281434b8f847618d1ddad2e9c8de",
    ),
    (
        "(way[highway];-way[name];);out ids;",
        "2 839 a38cfafbcde19c965651da47cbca8c4565b9b255745aa90170c11c0c042ea689",
        "2 847 46ea5a6c3899433ad4be91041035d77ddc5175adde7bb7fae4017fc1387237f8",
    ),
    (
        "node(52.5005,13.4005,52.5025,13.4035);out ids;",
        "2 778 20c18de8efc4dddc2f0d93e1ae7b9b7021a0269e07054cd568593c1436ec94d0",
        "4 910 3678d0c6f97939efc83d81eb15543d9bc613ff4ca9cec3b3e9312a1dce6265fe",
    ),
    (
        "node(52.501,13.401,52.502,13.403)[amenity!=bench];out ids;",
        "3 3715 f97e0a594e97ff682878dedf6f4584ee4171c206ce1f099e683e0984b36a2712",
        "5 3847 6c33d79c9b6d5ebdc62798b78f9e34f11a4da690906dc7933add1886ca0da299",
    ),
    (
        "way[highway=residential][!name];out ids;",
        "3 3776 07a42925bd98c204a603ede116d548aa624679204ad89fbf74a298853e70e7d5",
        "3 3784 1dbca77394f71efeb31b9ca9a9f35711f29fb00400368a3a8095e730847354d8",
    ),
    (
        "(node[amenity];way[building];);(._;>;);out skel;",
        "3 3776 07a42925bd98c204a603ede116d548aa624679204ad89fbf74a298853e70e7d5",
        "3 3784 1dbca77394f71efeb31b9ca9a9f35711f29fb00400368a3a8095e730847354d8",
    ),
    (
        "node(24)->.x;way(24)->.y;(.x;.y;rel(24););out ids;",
        "2 3083 d85214be8817c9736db984a364052547cf3df011b8d4f6fe1eb5bbefbc96b3ca",
        "2 3091 def9247b87ca5fcbdece5da9b109ed632c41281434b8f847618d1ddad2e9c8de",
    ),
    (
        "rel(24);out;",
        "2 3083 d85214be8817c9736db984a364052547cf3df011b8d4f6fe1eb5bbefbc96b3ca",
        "2 3091 def9247b87ca5fcbdece5da9b109ed632c41281434b8f847618d1ddad2e9c8de",
    ),
    (
        "(rel(3);>>;)->.all;node.all[name];out tags;",
        "2 3083 d85214be8817c9736db984a364052547cf3df011b8d4f6fe1eb5bbefbc96b3ca",
        "2 3091 def9247b87ca5fcbdece5da9b109ed632c41281434b8f847618d1ddad2e9c8de",
    ),
    (
        "node(id:1,7,24)->.a;(way(bn.a);rel(bn.a););out ids;",
        "3 3907 e3aa3839ce9cb129ef132a32fa504d07bda83be693f5265c187bd4c37221f9e5",
        "3 3915 b064b97b230b41ba1797e482d4913dded7f8ce68f9fa5a2f110027716a25a500",
    ),
    (
        "way[highway];out ids qt 2;",
        "2 839 a38cfafbcde19c965651da47cbca8c4565b9b255745aa90170c11c0c042ea689",
        "2 847 46ea5a6c3899433ad4be91041035d77ddc5175adde7bb7fae4017fc1387237f8",
    ),
    (
        "node[crossing=marked][highway=crossing];out ids;",
        "3 3776 07a42925bd98c204a603ede116d548aa624679204ad89fbf74a298853e70e7d5",
        "3 3784 1dbca77394f71efeb31b9ca9a9f35711f29fb00400368a3a8095e730847354d8",
    ),
    (
        "(node(1);-(node(2);-node(2);););out ids;",
        "2 3083 d85214be8817c9736db984a364052547cf3df011b8d4f6fe1eb5bbefbc96b3ca",
        "2 3091 def9247b87ca5fcbdece5da9b109ed632c41281434b8f847618d1ddad2e9c8de",
    ),
    (
        "node[\"name\"=\"\\u0043af\\u00e9\"];out ids;",
        "2 839 a38cfafbcde19c965651da47cbca8c4565b9b255745aa90170c11c0c042ea689",
        "2 847 46ea5a6c3899433ad4be91041035d77ddc5175adde7bb7fae4017fc1387237f8",
    ),
    (
        "way(14);>;out;",
        "2 3083 d85214be8817c9736db984a364052547cf3df011b8d4f6fe1eb5bbefbc96b3ca",
        "2 3091 def9247b87ca5fcbdece5da9b109ed632c41281434b8f847618d1ddad2e9c8de",
    ),
    (
        "rel(10);>>;out;",
        "2 3083 d85214be8817c9736db984a364052547cf3df011b8d4f6fe1eb5bbefbc96b3ca",
        "2 3091 def9247b87ca5fcbdece5da9b109ed632c41281434b8f847618d1ddad2e9c8de",
    ),
    (
        "nwr(24)[type];out tags;",
        "2 3083 d85214be8817c9736db984a364052547cf3df011b8d4f6fe1eb5bbefbc96b3ca",
        "2 3091 def9247b87ca5fcbdece5da9b109ed632c41281434b8f847618d1ddad2e9c8de",
    ),
    (
        "node(1);node._(1);out ids;",
        "2 3083 d85214be8817c9736db984a364052547cf3df011b8d4f6fe1eb5bbefbc96b3ca",
        "2 3091 def9247b87ca5fcbdece5da9b109ed632c41281434b8f847618d1ddad2e9c8de",
    ),
    (
        "way(13);node(w);out ids;",
        "2 3083 d85214be8817c9736db984a364052547cf3df011b8d4f6fe1eb5bbefbc96b3ca",
        "2 3091 def9247b87ca5fcbdece5da9b109ed632c41281434b8f847618d1ddad2e9c8de",
    ),
];

/// Over a hundred and thirty nodes.
pub(super) const OVER_MANY: [Row; 16] = [
    (
        "node[a];out ids;",
        "5 4046 4feca43d1124696814eccc7d32725700629bf69ae0bf8c36582c88e403f79bdc",
        "10 3812 c89179f3797083038bf3f8afa69b20d993628ebba91f4629857c5108ab0f81f7",
    ),
    (
        "node[a][b];out ids;",
        "8 9749 d5f8d0b48d69a0b20d86865167b3d8f566e492e928e98406e390400512a4430d",
        "13 10542 5d89ca0a6510a73332ace42971d6a47fef64c54e615677ab19fd151e81df00fc",
    ),
    (
        "node[a][c];out ids;",
        "9 10080 467bfbdf796d9dfb35bb5be004f3594211224bf1a9a6779fc0c9560c37666af7",
        "13 10464 e868842d48f6d47ab75da0ba52ff0f0a069b900673aeda54c6ad983546a8d488",
    ),
    (
        "node[a=1][b=2];out ids;",
        "8 9749 d5f8d0b48d69a0b20d86865167b3d8f566e492e928e98406e390400512a4430d",
        "13 10542 5d89ca0a6510a73332ace42971d6a47fef64c54e615677ab19fd151e81df00fc",
    ),
    (
        "node[b=1][c=3];out ids 3;",
        "7 8525 af834c07ec8a50f96541fe8ca362fd518d7bfe2be6f8ce55b2718d09ef4b059b",
        "10 9395 aaaef26fea6abb0a70c9badd08ee5aabcda19d830083a60d482c3ab4ac6617b3",
    ),
    (
        "node[a][b][c];out ids;",
        "9 10080 467bfbdf796d9dfb35bb5be004f3594211224bf1a9a6779fc0c9560c37666af7",
        "13 10464 e868842d48f6d47ab75da0ba52ff0f0a069b900673aeda54c6ad983546a8d488",
    ),
    (
        "node[b][b];out ids;",
        "7 8525 af834c07ec8a50f96541fe8ca362fd518d7bfe2be6f8ce55b2718d09ef4b059b",
        "12 9736 0851ad5f6a10013c154cd0b321f21b975af222bef00538cca0b90a1949aca91d",
    ),
    (
        "node[a=9][b];out ids;",
        "3 1598 3d730f7eb585e19cb7fed55d3a6a0631529a7e03fb404c24a16295399b9c7b6e",
        "4 2453 8dc0b106611f2a4e40f4916de7325c9b9d6d2d79ce917029f2f19fb6bf5f0279",
    ),
    (
        "node(65);out;",
        "3 3644 d0de397178a7a8084ce23f27114f4c374da889a3bfdc3c39204d951ec2e35103",
        "3 2895 a90b1da44fff9bd91a27dd8310f8d68ee3c98403a28a05f011d201d8f70379e5",
    ),
    (
        "node(64);out ids;",
        "3 3616 b4ef6e170aa9ed6a9c243db185a5c3024a0aaccfb7e366ee6733ef2143eab936",
        "3 2895 a90b1da44fff9bd91a27dd8310f8d68ee3c98403a28a05f011d201d8f70379e5",
    ),
    (
        "node(131);out;",
        "2 307 f5b4e21c5a60ce1f9f4d40fc855c0c4df1068fc0c0b5386f42cb547d9fafea21",
        "2 468 367bdb8fc093afd3e53ebe2883d7ca08879ba8cccfde629b3a965a18b00cb535",
    ),
    (
        "node[b!=2][a];out ids;",
        "9 10973 85e819caa56b2c908eeb4618d3953e0d8a83e3cb0b5db78568b9b77c0c406cef",
        "17 10916 fa5f2298b7094fcc2d538a4af9a04ec9664554f510ae314953abcc30635012a7",
    ),
    (
        "node[!b];out ids;",
        "5 7073 3789e90fb0c2b868ff22d718868688b6a572aa5618c91df3d6bec4c825803473",
        "8 7258 93c5cef35dad45eb534164eda7a50536ce30077d455e5c1edf5fde2d47f5a53a",
    ),
    (
        "node(-25,-20,0,0);out ids;",
        "4 3660 86a38550bbf329375eb2bd3ed967c3a35ffb7a611b4c07070238ad1395856258",
        "5 2638 fe52ebb8a542d7617032ab3598e8675d21e8f2110748148332874a9608e44482",
    ),
    (
        "node(-25,-20,0,0)[c];out ids;",
        "8 8856 8106cf6fcfa1b267ab85542e5f1282bae216b8e46ebef7199afdb5f9c985671f",
        "11 8662 c38e1ce8fe2ff4667b645879a5b90ad0eee2915172bd00c18e825df5f1cb35b3",
    ),
    (
        "node[c];node._[b=1];out ids;",
        "8 8856 8106cf6fcfa1b267ab85542e5f1282bae216b8e46ebef7199afdb5f9c985671f",
        "11 8662 c38e1ce8fe2ff4667b645879a5b90ad0eee2915172bd00c18e825df5f1cb35b3",
    ),
];
