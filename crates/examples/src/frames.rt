// Slices read as frames, and a frame written.
use frame::reader::read_frame;
use frame::writer::{close_frame, open_frame};
use print::{Bytes, Slice, Text, Untouched, front, show};
use text::put::put_bytes;

// What the reader answers: the number, the station, the body and the position; of a refused slice station 0 and no body.
pub fn read(rt: &impl Print, slice: &[u8]) {
    let (number, station, body, position) = match read_frame(slice) {
        Ok(frame) => (0, frame.station, Text(frame.body), 0),
        Err(refused) => (refused.refusal.number(), 0, Text(b""), refused.position),
    };
    show(rt, format_args!("frame {}: ", Slice(slice)));
    show(
        rt,
        format_args!("{number:02} {station} [{body}] @{position}\n"),
    );
}

// A frame of station 1 that is sound but for its length, 256 bytes; and the longest frame, 255 bytes.
pub fn read_long(rt: &impl Print) {
    let mut slice = [b'A'; 256];
    slice[0] = 0x02;
    slice[1] = b'1';
    slice[2] = b' ';
    slice[254] = 0x03;
    slice[255] = 0x53;
    read(rt, &slice);
    slice[253] = 0x03;
    slice[254] = 0x12;
    read(rt, front(&slice, 255));
}

// The reply "00" of station 2, written into a lent area of 64 bytes.
#[tactic(auto, unfolding(frame::specs::Frame::opening, text::specs::Whole::shortest, text::specs::Whole::leading, text::specs::Whole::digit))]
pub fn written(rt: &impl Print) {
    let mut area = [0xaa; 64];
    let body = open_frame(&mut area, 2);
    let end = put_bytes(&mut area, body, b"00");
    let n = close_frame(&mut area, end);
    let bytes = Bytes(front(&area, n));
    show(
        rt,
        format_args!("frame written 2 00: {bytes}{}\n", Untouched(&area)),
    );
}
