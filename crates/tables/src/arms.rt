// The tables of four arms, lent by the caller.

// One table for each kind, and for each field of a row, as C lends them. What is lent `&mut Arms` promises that it still holds
// the same tables (`SameTables`).
//
// Two things are lent beside them and not in here: the memory of the START programs, of which input calls are lent none, and
// which is a slice of any length until check 1 has judged it; and the stations, which setup writes and every other call may
// only read, as `&[u8; 4]` says by itself.
#[derive(Drop)]
pub struct Arms<'a> {
    pub timers: &'a mut [[u16; 16]; 4],
    pub registers: &'a mut [[u16; 64]; 4],
    pub x: &'a mut [[i32; 100]; 4],
    pub y: &'a mut [[i32; 100]; 4],
    pub z: &'a mut [[i32; 100]; 4],
    pub w: &'a mut [[i32; 100]; 4],
    pub inputs: &'a mut [[u8; 32]; 4],
    pub outputs: &'a mut [[u8; 32]; 4],
    pub memory: &'a mut [[u8; 16]; 4],
    pub on: &'a mut [u16; 4],
}
