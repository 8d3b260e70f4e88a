//! The inputs and the texts of worked rows. A semicolon stands for the end of a line, and a comma begins a facet.

pub const PLANE: &str = "complex rp2\
    ,1 2 5,1 2 6,1 3 4,1 3 6,1 4 5,2 3 4,2 3 5,2 4 6,3 5 6,4 5 6;end;";

pub const MOORE: &str = "complex moore\
    ,0 1 3,1 3 4,3 4 12,1 2 4,2 4 5,4 5 12,0 2 5,0 5 6,5 6 12,0 1 6,1 6 7,6 7 12,1 2 7,2 7 8\
    ,7 8 12,0 2 8,0 8 9,8 9 12,0 1 9,1 9 10,9 10 12,1 2 10,2 10 11,10 11 12,0 2 11,0 3 11\
    ,3 11 12;end;";

pub const TORUS: &str = "complex torus\
    ,0 1 3,0 1 5,0 2 3,0 2 6,0 4 5,0 4 6,1 2 4,1 2 6,1 3 4,1 5 6,2 3 5,2 4 5,3 4 6,3 5 6;end;";

pub const CIRCLE: &str = "complex circle,0 1,0 2,1 2;end;";

pub const BALL: &str = "complex ball,0 1 2,0 1 3,0 2 3,1 2 3;end;";

pub const SPHERE: &str = "complex sphere\
    ,0 1 2 3 4,0 1 2 3 5,0 1 2 4 5,0 1 3 4 5,0 2 3 4 5,1 2 3 4 5;end;";

pub const WIDE: &str = "complex big,0 1 2 3 4 5 6 7 8 9 10 11 12 13 14 15 16;";

pub const LARGE: &str = "complex big,0 1 2 3 4 5 6 7 8 9 10 11 12 13 14 15\
    ,16 17 18 19 20 21 22 23 24 25 26 27 28 29 30 31;";

pub const MAPS: &str = "\
    map same rp2 rp2;send 1 1;send 2 2;send 3 3;send 4 4;send 5 5;send 6 6;end;\
    map flat rp2 rp2;send 1 1;send 2 1;send 3 1;send 4 1;send 5 1;send 6 1;end;";

pub const CIRCLE_CERTIFIED: &str = "\
    comch certificate 1;prime 3;complex circle;facet 0 1;facet 0 2;facet 1 2;degree 0 rank 1;\
    class 1:0 1:1 1:2;degree 1 rank 1;below 1:1;below 1:2;class 1:1.2;product 0 0;\
    column 1 1 is 1;with 0;product 0 1;column 1 1 is 1;with 0;product 1 0;column 1 1 is 1;\
    with 0;operation P 0 from 0 to 0;column 1 is 1;with 0;operation P 0 from 1 to 1;\
    column 1 is 1;with 0;cartan 0 1 0 1 0 yes;with 0;cartan 0 1 1 1 0 yes;with 0;\
    cartan 1 1 0 1 0 yes;with 0;end;done;";

pub const CIRCLE_AT_5: &str = "\
    comch report 1;prime 5;complex circle;degree 0 rank 1;class 1:0 1:1 1:2;degree 1 rank 1;\
    class 1:1.2;product 0 0;column 1 1 is 1;product 0 1;column 1 1 is 1;product 1 0;\
    column 1 1 is 1;operation P 0 from 0 to 0;column 1 is 1;operation P 0 from 1 to 1;\
    column 1 is 1;cartan 0 1 0 1 0 yes;cartan 0 1 1 1 0 yes;cartan 1 1 0 1 0 yes;end;done;";

pub const PLANE_REPORT: &str = "\
    comch report 1;prime 2;complex rp2;degree 0 rank 1;class 1:1 1:2 1:3 1:4 1:5 1:6;\
    degree 1 rank 1;class 1:2.3 1:2.4 1:3.5 1:4.6 1:5.6;degree 2 rank 1;class 1:4.5.6;\
    product 0 0;column 1 1 is 1;product 0 1;column 1 1 is 1;product 0 2;column 1 1 is 1;\
    product 1 0;column 1 1 is 1;product 1 1;column 1 1 is 1;product 2 0;column 1 1 is 1;\
    operation Sq 0 from 0 to 0;column 1 is 1;operation Sq 0 from 1 to 1;column 1 is 1;\
    operation Sq 1 from 1 to 2;column 1 is 1;operation Sq 0 from 2 to 2;column 1 is 1;\
    cartan 0 1 0 1 0 yes;cartan 0 1 1 1 0 yes;cartan 0 1 1 1 1 yes;cartan 0 1 2 1 0 yes;\
    cartan 1 1 0 1 0 yes;cartan 1 1 0 1 1 yes;cartan 1 1 1 1 0 yes;cartan 2 1 0 1 0 yes;end;";

pub const TORUS_REPORT: &str = "\
    comch report 1;prime 3;complex torus;degree 0 rank 1;class 1:0 1:1 1:2 1:3 1:4 1:5 1:6;\
    degree 1 rank 2;class 1:1.2 1:1.6 2:2.4 2:2.5 2:3.5 1:5.6;\
    class 1:1.4 1:2.4 1:2.5 1:3.4 1:3.5 1:3.6;degree 2 rank 1;class 1:3.5.6;product 0 0;\
    column 1 1 is 1;product 0 1;column 1 1 is 1 0;column 1 2 is 0 1;product 0 2;\
    column 1 1 is 1;product 1 0;column 1 1 is 1 0;column 2 1 is 0 1;product 1 1;\
    column 1 1 is 0;column 1 2 is 2;column 2 1 is 1;column 2 2 is 0;product 2 0;\
    column 1 1 is 1;operation P 0 from 0 to 0;column 1 is 1;operation P 0 from 1 to 1;\
    column 1 is 1 0;column 2 is 0 1;operation bP 0 from 1 to 2;column 1 is 0;column 2 is 0;\
    operation P 0 from 2 to 2;column 1 is 1;cartan 0 1 0 1 0 yes;cartan 0 1 1 1 0 yes;\
    cartan 0 1 1 2 0 yes;cartan 0 1 2 1 0 yes;cartan 1 1 0 1 0 yes;cartan 1 2 0 1 0 yes;\
    cartan 1 1 1 1 0 yes;cartan 1 1 1 2 0 yes;cartan 1 2 1 1 0 yes;cartan 1 2 1 2 0 yes;\
    cartan 2 1 0 1 0 yes;end;done;";

pub const MOORE_REPORT: &str = "\
    comch report 1;prime 3;complex moore;degree 0 rank 1;\
    class 1:0 1:1 1:2 1:3 1:4 1:5 1:6 1:7 1:8 1:9 1:10 1:11 1:12;degree 1 rank 1;\
    class 1:1.2 2:2.4 2:2.7 2:2.10 1:4.5 2:5.12 2:6.12 1:7.8 2:7.12 1:8.12 1:9.12 1:10.11 1:10.12;\
    degree 2 rank 1;class 1:10.11.12;product 0 0;column 1 1 is 1;product 0 1;column 1 1 is 1;\
    product 0 2;column 1 1 is 1;product 1 0;column 1 1 is 1;product 1 1;column 1 1 is 0;\
    product 2 0;column 1 1 is 1;operation P 0 from 0 to 0;column 1 is 1;\
    operation P 0 from 1 to 1;column 1 is 1;operation bP 0 from 1 to 2;column 1 is 1;\
    operation P 0 from 2 to 2;column 1 is 1;cartan 0 1 0 1 0 yes;cartan 0 1 1 1 0 yes;\
    cartan 0 1 2 1 0 yes;cartan 1 1 0 1 0 yes;cartan 1 1 1 1 0 yes;cartan 2 1 0 1 0 yes;end;\
    done;";

pub const TWO_POINTS: &str = "\
    comch report 1;prime 5;complex two;degree 0 rank 2;class 1:0;class 1:1;product 0 0;\
    column 1 1 is 1 0;column 1 2 is 0 0;column 2 1 is 0 0;column 2 2 is 0 1;\
    operation P 0 from 0 to 0;column 1 is 1 0;column 2 is 0 1;cartan 0 1 0 1 0 yes;\
    cartan 0 1 0 2 0 yes;cartan 0 2 0 1 0 yes;cartan 0 2 0 2 0 yes;end;done;";

pub const BALL_REPORT: &str = "\
    comch report 1;prime 3;complex ball;degree 0 rank 1;class 1:0 1:1 1:2 1:3;degree 1 rank 0;\
    degree 2 rank 1;class 1:1.2.3;product 0 0;column 1 1 is 1;product 0 2;column 1 1 is 1;\
    product 2 0;column 1 1 is 1;operation P 0 from 0 to 0;column 1 is 1;\
    operation P 0 from 2 to 2;column 1 is 1;cartan 0 1 0 1 0 yes;cartan 0 1 2 1 0 yes;\
    cartan 2 1 0 1 0 yes;end;done;";

pub const EDGE_CERTIFIED: &str = "\
    comch certificate 1;prime 2;complex edge;facet 0 1;degree 0 rank 1;class 1:0 1:1;\
    degree 1 rank 0;below 1:1;product 0 0;column 1 1 is 1;with 0;operation Sq 0 from 0 to 0;\
    column 1 is 1;with 0;cartan 0 1 0 1 0 yes;with 0;end;map id edge edge;send 0 0;send 1 1;\
    induced 0;column 1 is 1;with 0;end;done;";

pub const EMPTY_MAPS_CERTIFIED: &str = "\
    comch certificate 1;prime 3;complex none;end;complex pt;facet 0;degree 0 rank 1;class 1:0;\
    product 0 0;column 1 1 is 1;with 0;operation P 0 from 0 to 0;column 1 is 1;with 0;\
    cartan 0 1 0 1 0 yes;with 0;end;map f none pt;end;map g none none;end;done;";

pub const POINT_REPORT: &str = "\
    comch report 1;prime 2;complex pt;degree 0 rank 1;class 1:0;product 0 0;column 1 1 is 1;\
    operation Sq 0 from 0 to 0;column 1 is 1;cartan 0 1 0 1 0 yes;end;done;";

pub const MAPS_REPORT: &str = "\
    map same rp2 rp2;induced 0;column 1 is 1;induced 1;column 1 is 1;induced 2;column 1 is 1;\
    end;map flat rp2 rp2;induced 0;column 1 is 1;induced 1;column 1 is 0;induced 2;\
    column 1 is 0;end;done;";
