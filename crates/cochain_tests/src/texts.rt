//! Complexes, and what is known of them. A semicolon stands for the end of a line, and a comma begins a facet.

pub const CIRCLE: &str = "complex circle,0 1,0 2,1 2;end;";

pub const DISC: &str = "complex disc,0 1 2;end;";

pub const PLANE: &str = "complex rp2\
    ,1 2 5,1 2 6,1 3 4,1 3 6,1 4 5,2 3 4,2 3 5,2 4 6,3 5 6,4 5 6;end;";

pub const TORUS: &str = "complex torus\
    ,0 1 3,0 1 5,0 2 3,0 2 6,0 4 5,0 4 6,1 2 4,1 2 6,1 3 4,1 5 6,2 3 5,2 4 5,3 4 6,3 5 6;end;";

pub const MOORE: &str = "complex moore\
    ,0 1 3,1 3 4,3 4 12,1 2 4,2 4 5,4 5 12,0 2 5,0 5 6,5 6 12,0 1 6,1 6 7,6 7 12,1 2 7,2 7 8\
    ,7 8 12,0 2 8,0 8 9,8 9 12,0 1 9,1 9 10,9 10 12,1 2 10,2 10 11,10 11 12,0 2 11,0 3 11\
    ,3 11 12;end;";

pub const TWO_POINTS: &str = "complex two,0,1;end;";

pub const CONSTANT_MAP: &str = "complex circle,0 1,0 2,1 2;end;\
    map constant circle circle;send 0 0;send 1 0;send 2 0;end;";
