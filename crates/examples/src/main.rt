// Runs the examples of documents 01 and 02 against the code, by a script of a line for each, and prints a line for
// each answer. What must be printed stands in the file stdout, which was written from the documents and not from
// a run.
#![tactic(auto)]

mod frames; // frames.rt: slices read as frames, and a frame written
mod numerals; // numerals.rt: numbers read and written
mod run; // run.rt: the script run line by line

use crate::run::run;
use owned::arrays::Tables;

// p are the START programs, s the stations.
fn main(rt: HostRuntime) {
    let mut tables = Tables::filled(0);
    let mut p = [0u8; 40960];
    let mut s = [0u8; 4];
    run(
        &rt,
        &mut tables,
        &mut p,
        &mut s,
        b"# Check 2: no bytes, and 5 bytes.\0\
          F\0\
          F\x021 \x03\x12\0\
          # Checks 3 and 4.\0\
          F\x011 LNT 5\x03\x51\0\
          F\x021 LNT 5\x04\x56\0\
          # Check 5: LRC 50h for 51h, over STX too, without ETX.\0\
          F\x021 LNT 5\x03\x50\0\
          F\x021 LNT 5\x03\x53\0\
          F\x021 LNT 5\x03\x52\0\
          # Check 6: the bytes 1Fh and 7Fh.\0\
          F\x021 \x1fA\x03\x4c\0\
          F\x021 \x7fA\x03\x2c\0\
          # Wrong by checks 3 to 7, and by 5 to 7.\0\
          F\x011\x7f5\x04\x01\0\
          F\x021\x7f5\x03\x01\0\
          # Check 7: stations 01, 100 and 0, no station, no SP.\0\
          F\x0201 A\x03\x63\0\
          F\x02100 A\x03\x53\0\
          F\x020 A\x03\x52\0\
          F\x02 AB\x03\x20\0\
          F\x021LNT5\x03\x51\0\
          # Frames accepted: P1, P2, LRC 02h and 03h, station 99, the bytes 20h and 7Eh, 6 bytes.\0\
          F\x021 LNT 5\x03\x51\0\
          F\x022 SND 63 0042\x03\x4b\0\
          F\x026 LNOB 8\x03\x02\0\
          F\x027 LNOB 8\x03\x03\0\
          F\x0299 A\x03\x62\0\
          F\x021  ~\x03\x4c\0\
          F\x0210 \x03\x22\0\
          # Texts read as hundredths.\0\
          H-0.05\0\
          H-0\0\
          H-0.0\0\
          H-0.00\0\
          H12.5\0\
          H-9999.99\0\
          H10000\0\
          H1.\0\
          H.5\0\
          H1.234\0\
          H+1\0\
          H\0\
          # Texts read as whole numbers.\0\
          W0042\0\
          W10000\0\
          W\0\
          W-1\0",
    );
    frames::read_long(&rt);
    frames::written(&rt);
    numerals::hundredths_written(&rt);
    numerals::wholes_written(&rt);
    run(
        &rt,
        &mut tables,
        &mut p,
        &mut s,
        b"# Requests of each kind. One that is accepted is written too.\0\
          Q\x021 LNT 5\x03\x51\0\
          Q\x021 SNT 15 9.99\x03\x48\0\
          Q\x022 LND 63\x03\x72\0\
          Q\x022 SND 63 0042\x03\x4b\0\
          Q\x023 LNL 99\x03\x7e\0\
          Q\x023 SNL 99 -9999.99 9999.99 -0.05 12.50\x03\x52\0\
          Q\x024 LNIB 255\x03\x0c\0\
          Q\x024 LNOB 255\x03\x0a\0\
          Q\x024 SNOB 255 1\x03\x04\0\
          Q\x025 LNID 31\x03\x3b\0\
          Q\x025 LNOD 31\x03\x3d\0\
          Q\x025 SNOD 31 255\x03\x30\0\
          Q\x0299 LNBB 256\x03\x30\0\
          Q\x0299 SNBB 383 1\x03\x37\0\
          Q\x0299 LNBD 15\x03\x03\0\
          Q\x0299 SNBD 15 255\x03\x0e\0\
          # Numbers that are read in one form and written in another.\0\
          Q\x021 LNT 0005\x03\x61\0\
          Q\x021 SND 0 7\x03\x4c\0\
          Q\x021 SNL 0 -0 12.5 7 -0.1\x03\x63\0\
          # The longest row, which 64 bytes hold.\0\
          Q\x0299 SNL 99 -9999.99 -9999.99 -9999.99 -9999.99\x03\x52\0\
          # Check 5 of the frame, and check 9: a name in small letters, an empty body, an empty name.\0\
          Q\x021 LNT 5\x03\x50\0\
          Q\x021 lnt 5\x03\x71\0\
          Q\x0210 \x03\x22\0\
          Q\x021  LNT 5\x03\x71\0\
          # Check 10: two SPs together, an SP at the end, a missing field, a surplus field, a field out of its form.\0\
          Q\x021 LNT  5\x03\x71\0\
          Q\x021 LNT 5 \x03\x71\0\
          Q\x021 LNT\x03\x44\0\
          Q\x021 SNT 5\x03\x4e\0\
          Q\x021 SNL 0 1.00\x03\x6c\0\
          Q\x021 LNT 5 1\x03\x40\0\
          Q\x021 SND 0 1 2\x03\x58\0\
          Q\x021 SND 0 -1\x03\x67\0\
          Q\x021 SNL 0 10000 0 0 0\x03\x52\0\
          Q\x021 SNOD 32 x\x03\x7d\0\
          # X and Y alone are no row: check 10, which comes before check 11.\0\
          Q\x021 SNL 0 -0 12.5\x03\x56\0\
          Q\x021 SNL 100 0 0\x03\x52\0\
          # Check 11, and check 12.\0\
          Q\x021 SNOD 32 256\x03\x34\0\
          Q\x021 LNBB 255\x03\x02\0\
          Q\x021 LNBB 384\x03\x0f\0\
          Q\x021 LNL 100\x03\x4d\0\
          Q\x021 SNL 100 0 0 0 0\x03\x52\0\
          Q\x021 LND 64\x03\x76\0\
          Q\x021 SND 64 0\x03\x79\0\
          Q\x021 SNT 0 10.00\x03\x44\0\
          Q\x021 SNT 0 -0.01\x03\x59\0\
          # Replies: checks 7, 11 and 12 of the request come before check 2 of the slice.\0\
          PB\0\
          PD\0\
          PW\0\
          PG\0\
          PI\0\
          # Checks 5 to 7 of the slice, and check 15: another station, data out of range or of a wrong form.\0\
          PI\x021 9.99\x03\x04\0\
          PI\x021 \x1f9\x034\0\
          PI\x0201 9\x03\x1b\0\
          PI\x022 9.99\x03\x06\0\
          PI\x021 10.00\x03\x3d\0\
          PI\x021 x\x03\x6a\0\
          PI\x021 9.99 1\x03\x14\0\
          PI\x021 E5\x03\x62\0\
          PN\x021 E05\x03\x52\0\
          PN\x021 000\x03\x22\0\
          # Check 15 of a row: X and Y alone, three values, five values.\0\
          PK\x023 -0.05 9999.99\x03\x28\0\
          PK\x023 -0.05 9999.99 0.00\x03\x16\0\
          PK\x023 -0.05 9999.99 0.00 0.00 0.00\x03\x16\0\
          # Any two digits may follow E.\0\
          PI\x021 E09\x03\x5e\0\
          # Typed requests written: P2, and checks 7, 11 and 12.\0\
          TA\0\
          TB\0\
          TC\0\
          TD\0\
          TE\0\
          TF\0\
          TW\0\
          TG\0\
          TH\0\
          # Those that replies of each kind answer.\0\
          TI\0\
          TJ\0\
          TK\0\
          TL\0\
          TM\0\
          TN\0\
          # Stations 0, 1 and 99.\0\
          TO\0\
          TP\0\
          TQ\0\
          # Ends of data that no text can pass, and one beyond.\0\
          TR\0\
          TS\0\
          TT\0\
          TU\0\
          TV\0\
          TX\0\
          TY\0\
          # An area of 63 bytes.\0\
          tI\0\
          tO\0\
          # Typed replies written: data of each kind, and statuses.\0\
          Ya\0\
          Yb\0\
          Yc\0\
          Yd\0\
          Ye\0\
          Yf\0\
          Yg\0\
          Yh\0\
          # Statuses 00, 99 and 100, of an LN and of an SN.\0\
          Yi\0\
          Yj\0\
          Yk\0\
          Yl\0\
          Ym\0\
          # Check 12 of what a reply carries, and checks 7, 11 and 12 of the request, which come before.\0\
          Yn\0\
          Yo\0\
          Yp\0\
          Yq\0\
          Yv\0\
          Yw\0\
          Yr\0\
          Ys\0\
          Yt\0\
          Yu\0\
          # An area of 63 bytes.\0\
          ya\0\
          yu\0",
    );
    run(
        &rt,
        &mut tables,
        &mut p,
        &mut s,
        b"# Row 99 is the last. A refused row changes no arm's tables.\0\
          setup 1 2 3 4\0\
          S\x021 SNL 99 -9999.99 0.05 12.5 -7\x03y\0\
          S\x021 LNL 99\x03|\0\
          S\x021 SNL 100 1 2 3 4\x03V\0\
          S\x021 LNL 100\x03M\0\
          S\x022 LNL 0\x03O\0\
          S\x022 LNL 99\x03\x7f\0\
          S\x023 LNL 99\x03~\0\
          S\x024 LNL 99\x03y\0\
          # Each field of a row holds its own value. The least and the greatest stand in each place.\0\
          S\x021 SNL 0 -9999.99 9999.99 0.05 -7\x03\x7f\0\
          S\x021 SNL 1 -7 -9999.99 9999.99 0.05\x03~\0\
          S\x021 SNL 2 0.05 -7 -9999.99 9999.99\x03}\0\
          S\x021 SNL 3 9999.99 0.05 -7 -9999.99\x03|\0\
          S\x021 LNL 0\x03L\0\
          S\x021 LNL 1\x03M\0\
          S\x021 LNL 2\x03N\0\
          S\x021 LNL 3\x03O\0\
          # Check 10 of a row: X and Y alone, three values, five values, five digits in each place. The row is kept.\0\
          S\x021 SNL 0 1 2\x03P\0\
          S\x021 SNL 0 1 2 3\x03C\0\
          S\x021 SNL 0 1 2 3 4 5\x03B\0\
          S\x021 SNL 0 10000 2 3 4\x03W\0\
          S\x021 SNL 0 1 10000 3 4\x03T\0\
          S\x021 SNL 0 1 2 10000 4\x03U\0\
          S\x021 SNL 0 1 2 3 10000\x03R\0\
          S\x021 LNL 0\x03L\0\
          # Timers.\0\
          S\x021 LNT 5\x03Q\0\
          S\x021 SNT 5 1.25\x03v\0\
          S\x021 LNT 5\x03Q\0\
          # Registers 16, 40 and 63 answer what was stored. 63 is the last.\0\
          S\x022 SND 63 0042\x03K\0\
          S\x022 LND 63\x03r\0\
          S\x022 LND 15\x03s\0\
          S\x022 SND 15 42\x03J\0\
          S\x022 LND 15\x03s\0\
          S\x022 LND 16\x03p\0\
          S\x022 SND 16 9999\x03O\0\
          S\x022 LND 16\x03p\0\
          S\x022 SND 40 1234\x03H\0\
          S\x022 LND 40\x03s\0\
          S\x022 LND 15\x03s\0\
          S\x022 LND 63\x03r\0\
          S\x022 LND 64\x03u\0\
          S\x022 SND 64 1\x03{\0\
          # Signals and the ports that hold them.\0\
          S\x021 SNOB 255 1\x03\x01\0\
          S\x021 LNOD 31\x039\0\
          S\x021 LNOB 255\x03\x0f\0\
          S\x021 SNBB 272 1\x03\x09\0\
          S\x021 LNBD 2\x03\x04\0\
          S\x021 LNBB 255\x03\x02\0\
          S\x021 LNBB 384\x03\x0f\0\
          # Input calls.\0\
          input slot 2 port 31 byte 200\0\
          S\x023 LNID 31\x03=\0\
          input slot 4 port 0 byte 1\0\
          input slot 0 port 32 byte 1\0\
          # Requests refused.\0\
          S\x021 LNT  5\x03q\0\
          S\x021 SNOD 32 256\x034\0\
          S\x021 lnt 5\x03q\0\
          S\x021 SNT 5 10.00\x03A\0\
          # A refused setup leaves no station.\0\
          setup 1 2 1 0\0\
          setup 100 0 0 0\0\
          # Slot 0 is unfitted, and no arm has station 1.\0\
          setup 0 7 0 0\0\
          input slot 0 port 0 byte 1\0\
          input slot 1 port 0 byte 1\0\
          S\x027 LNID 0\x03\x0b\0\
          S\x021 LNT 5\x03Q\0\
          # An item of each kind is stored.\0\
          setup 1 2 3 4\0\
          S\x021 SNT 5 1.25\x03v\0\
          S\x021 SND 63 0042\x03H\0\
          S\x021 SNL 99 -9999.99 0.05 12.5 -7\x03y\0\
          input slot 0 port 31 byte 200\0\
          S\x021 SNOB 255 1\x03\x01\0\
          S\x021 SNBB 272 1\x03\x09\0\
          # Refusals 1 to 14. Each call but that of no bytes would store something if it were not refused.\0\
          N\x021 SNT 5 9.99\x03y\0\
          S\0\
          S\x011 SNT 5 9.99\x03y\0\
          S\x021 SNT 5 9.99\x04y\0\
          S\x021 SNT 5 9.99\x03x\0\
          S\x021 SNT 5\x099.99\x03P\0\
          S\x0201 SNT 5 9.99\x03I\0\
          S\x029 SNT 5 9.99\x03q\0\
          S\x021 snt 5 9.99\x03Y\0\
          S\x021 SNL 99 7 7 7 10000\x03e\0\
          S\x021 SNL 100 7 7 7 7\x03R\0\
          S\x021 SNT 5 10.00\x03A\0\
          other setup 1 1 0 0\0\
          input slot 0 port 32 byte 1\0\
          # Stations 1 and 99 and slots 0 and 3 are the ends; so are ports 0 and 31.\0\
          setup 99 0 0 1\0\
          input slot 0 port 0 byte 255\0\
          input slot 0 port 31 byte 1\0\
          input slot 3 port 0 byte 128\0\
          input slot 3 port 31 byte 255\0\
          S\x0299 LNID 0\x03\x3c\0\
          S\x0299 LNID 31\x03\x0e\0\
          S\x021 LNID 0\x03\x0d\0\
          S\x021 LNID 31\x03\x3f\0\
          S\x021 LNIB 0\x03\x0b\0\
          S\x021 LNIB 7\x03\x0c\0\
          S\x021 LNIB 255\x03\x09\0\
          S\x0299 LNIB 0\x03\x3a\0\
          S\x0299 LNIB 8\x03\x32\0\
          S\x0299 LNIB 248\x03\x34\0\
          input slot 1 port 0 byte 1\0\
          input slot 2 port 0 byte 1\0\
          input slot 4 port 0 byte 1\0\
          input slot 0 port 32 byte 1\0\
          input slot 3 port 32 byte 1\0\
          # One nonzero station twice, in any two slots; a station above 99, in any slot; 0 in any number of slots.\0\
          setup 5 0 0 5\0\
          setup 0 0 6 6\0\
          setup 1 2 3 100\0\
          setup 0 100 0 0\0\
          setup 0 0 0 0\0\
          setup 99 98 97 1\0\
          # Outputs that are on (document 02, E7): all 256 by their ports.\0\
          setup 8 0 2 0\0\
          outputs on slot 0\0\
          S\x028 SNOD 0 255\x03\x0f\0\
          outputs on slot 0\0\
          S\x028 SNOD 1 255\x03\x0e\0\
          outputs on slot 0\0\
          S\x028 SNOD 2 255\x03\x0d\0\
          outputs on slot 0\0\
          S\x028 SNOD 3 255\x03\x0c\0\
          outputs on slot 0\0\
          S\x028 SNOD 4 255\x03\x0b\0\
          outputs on slot 0\0\
          S\x028 SNOD 5 255\x03\x0a\0\
          outputs on slot 0\0\
          S\x028 SNOD 6 255\x03\x09\0\
          outputs on slot 0\0\
          S\x028 SNOD 7 255\x03\x08\0\
          outputs on slot 0\0\
          S\x028 SNOD 8 255\x03\x07\0\
          outputs on slot 0\0\
          S\x028 SNOD 9 255\x03\x06\0\
          outputs on slot 0\0\
          S\x028 SNOD 10 255\x03>\0\
          outputs on slot 0\0\
          S\x028 SNOD 11 255\x03?\0\
          outputs on slot 0\0\
          S\x028 SNOD 12 255\x03<\0\
          outputs on slot 0\0\
          S\x028 SNOD 13 255\x03=\0\
          outputs on slot 0\0\
          S\x028 SNOD 14 255\x03:\0\
          outputs on slot 0\0\
          S\x028 SNOD 15 255\x03;\0\
          outputs on slot 0\0\
          S\x028 SNOD 16 255\x038\0\
          outputs on slot 0\0\
          S\x028 SNOD 17 255\x039\0\
          outputs on slot 0\0\
          S\x028 SNOD 18 255\x036\0\
          outputs on slot 0\0\
          S\x028 SNOD 19 255\x037\0\
          outputs on slot 0\0\
          S\x028 SNOD 20 255\x03=\0\
          outputs on slot 0\0\
          S\x028 SNOD 21 255\x03<\0\
          outputs on slot 0\0\
          S\x028 SNOD 22 255\x03?\0\
          outputs on slot 0\0\
          S\x028 SNOD 23 255\x03>\0\
          outputs on slot 0\0\
          S\x028 SNOD 24 255\x039\0\
          outputs on slot 0\0\
          S\x028 SNOD 25 255\x038\0\
          outputs on slot 0\0\
          S\x028 SNOD 26 255\x03;\0\
          outputs on slot 0\0\
          S\x028 SNOD 27 255\x03:\0\
          outputs on slot 0\0\
          S\x028 SNOD 28 255\x035\0\
          outputs on slot 0\0\
          S\x028 SNOD 29 255\x034\0\
          outputs on slot 0\0\
          S\x028 SNOD 30 255\x03<\0\
          outputs on slot 0\0\
          S\x028 SNOD 31 255\x03=\0\
          outputs on slot 0\0\
          # One off by its signal, and again; a port written over itself; one on again; a port off, and a part of one.\0\
          S\x028 SNOB 255 0\x03\x09\0\
          outputs on slot 0\0\
          S\x028 SNOB 255 0\x03\x09\0\
          outputs on slot 0\0\
          S\x028 SNOD 31 127\x03;\0\
          outputs on slot 0\0\
          S\x028 SNOD 30 255\x03<\0\
          outputs on slot 0\0\
          S\x028 SNOB 255 1\x03\x08\0\
          outputs on slot 0\0\
          S\x028 SNOB 255 1\x03\x08\0\
          outputs on slot 0\0\
          S\x028 SNOD 0 0\x03\x0d\0\
          outputs on slot 0\0\
          S\x028 SNOD 15 165\x03;\0\
          outputs on slot 0\0\
          # Inputs, memory bits, another arm and refused calls do not move the number.\0\
          input slot 0 port 0 byte 255\0\
          outputs on slot 0\0\
          S\x028 SNBD 0 255\x03\x02\0\
          outputs on slot 0\0\
          S\x028 SNBB 256 0\x03\x07\0\
          outputs on slot 0\0\
          S\x022 SNOD 31 7\x032\0\
          outputs on slot 0\0\
          outputs on slot 2\0\
          S\x028 SNOD 32 255\x03>\0\
          outputs on slot 0\0\
          S\x028 SNOD 0 256\x03\x0c\0\
          outputs on slot 0\0\
          S\x028 SNOB 256 1\x03\x0b\0\
          outputs on slot 0\0\
          S\x028 SNOB 0 2\x03\x09\0\
          outputs on slot 0\0\
          S\x023 SNOD 0 255\x03\x04\0\
          outputs on slot 0\0\
          S\x028 SNOD 0 255\x03\x0e\0\
          outputs on slot 0\0\
          outputs on slot 2\0\
          # Slots above 3 and unfitted; a new box; a refused setup.\0\
          outputs on slot 1\0\
          outputs on slot 3\0\
          outputs on slot 4\0\
          outputs on slot 5\0\
          outputs on slot 256\0\
          outputs on slot 9999\0\
          setup 0 3 0 0\0\
          outputs on slot 0\0\
          outputs on slot 1\0\
          S\x023 SNOB 9 1\x03\x08\0\
          outputs on slot 1\0\
          setup 3 3 0 0\0\
          outputs on slot 0\0\
          outputs on slot 1\0\
          # The ranges of numbers and data by document 01; of LND (E2) and the fields of a row (E6) by document 02.\0\
          setup 1 0 0 0\0\
          R0 LNT -1 0 15 16\0\
          R1 SNT -1 0 15 16 -0.01 0.00 9.99 10.00\0\
          R0 LND -1 0 63 64\0\
          R1 SND -1 0 63 64 -1 0 9999 10000\0\
          R0 LNL -1 0 99 100\0\
          R4 SNL -1 0 99 100 -10000.00 -9999.99 9999.99 10000.00\0\
          R0 LNIB -1 0 255 256\0\
          R0 LNOB -1 0 255 256\0\
          R1 SNOB -1 0 255 256 -1 0 1 2\0\
          R0 LNID -1 0 31 32\0\
          R0 LNOD -1 0 31 32\0\
          R1 SNOD -1 0 31 32 -1 0 255 256\0\
          R0 LNBB 255 256 383 384\0\
          R1 SNBB 255 256 383 384 -1 0 1 2\0\
          R0 LNBD -1 0 15 16\0\
          R1 SNBD -1 0 15 16 -1 0 255 256\0",
    );
    run(
        &rt,
        &mut tables,
        &mut p,
        &mut s,
        b"# START programs (document 02, E3): typed steps with no data to four, texts of 1 to 8 characters. The last has 58 bytes.\0\
          Ta\0\
          Tb\0\
          Tc\0\
          Td\0\
          Te\0\
          # Steps 0, 7 and 255 asked for, and step 0 written.\0\
          Ty\0\
          Tt\0\
          Tu\0\
          Tz\0\
          # The same read from frames. The last has 58 bytes.\0\
          Q\x021 LNA 7\x03F\0\
          Q\x0299 LNA 255\x03r\0\
          Q\x021 SNA 7 MOVE\x03h\0\
          Q\x021 SNA 7 A POINT-99\x03y\0\
          Q\x021 SNA 7 POINT-99 A B\x03\x1b\0\
          Q\x021 SNA 7 !~ A POINT-99 B\x03d\0\
          Q\x0299 SNA 255 COMMANDS FIRST-11 SECOND-2 THIRD--3 FOURTH-4\x03Z\0\
          # A step is a number, read with leading zeros and written without.\0\
          Q\x021 LNA 0007\x03v\0\
          Q\x021 SNA 0000 A\x03\x0f\0\
          # Check 9: names in small letters.\0\
          Q\x021 lna 7\x03f\0\
          Q\x021 sna 7 MOVE\x03H\0\
          # Check 10: LNA with no step, with a second field, with one that is no number.\0\
          Q\x021 LNA\x03Q\0\
          Q\x021 LNA 7 MOVE\x03w\0\
          Q\x021 LNA A\x030\0\
          Q\x021 LNA \x03q\0\
          Q\x021 LNA 7 \x03f\0\
          # Check 10: SNA with no step, with no command, with a seventh field.\0\
          Q\x021 SNA\x03N\0\
          Q\x021 SNA 7\x03Y\0\
          Q\x021 SNA 7 MOVE A B A B A\x03\x09\0\
          Q\x021 SNA 7 MOVE A B A B \x03H\0\
          # Check 10: texts of 9 characters in each place, and empty texts.\0\
          Q\x021 SNA 7 ABCDEFGHI\x038\0\
          Q\x021 SNA 7 A ABCDEFGHI\x03Y\0\
          Q\x021 SNA 7 A A ABCDEFGHI\x038\0\
          Q\x021 SNA 7 A A A ABCDEFGHI\x03Y\0\
          Q\x021 SNA 7 A A A A ABCDEFGHI\x038\0\
          Q\x021 SNA 7  A\x03\x18\0\
          Q\x021 SNA 7 \x03y\0\
          Q\x021 SNA 7 MOVE  A\x03)\0\
          Q\x021 SNA 7 MOVE A \x03)\0\
          # The first of several: a step that is no number, a text before a seventh field.\0\
          Q\x021 SNA x ABCDEFGHI\x03w\0\
          Q\x021 SNA 7 MOVE A  A B A\x03K\0\
          Q\x021 SNA -1\x03r\0\
          # Check 11: step 256. Check 10 comes before.\0\
          Q\x021 LNA 255\x03C\0\
          Q\x021 LNA 256\x03@\0\
          Q\x021 SNA 255 MOVE\x03m\0\
          Q\x021 SNA 256 MOVE\x03n\0\
          Q\x021 SNA 256 ABCDEFGHI\x03>\0\
          Q\x021 SNA 256\x03_\0\
          Tv\0\
          Tw\0\
          Tx\0\
          # Check 12 of typed texts: a hole, the bytes 20h, 7Fh, 80h and FFh, in a command.\0\
          Tf\0\
          Tg\0\
          Th\0\
          Ti\0\
          Tj\0\
          Tk\0\
          Tl\0\
          # The same in the first datum and in the last; gaps in the data; no command.\0\
          Tm\0\
          Tn\0\
          To\0\
          Tp\0\
          Tq\0\
          Tr\0\
          Ts\0\
          # An area of 63 bytes.\0\
          ta\0\
          te\0\
          ts\0\
          tx\0\
          # Typed replies written and read back, with no data to four. The last has 54 bytes.\0\
          YA\0\
          YB\0\
          YC\0\
          YD\0\
          YE\0\
          # Statuses: E16 of an LNA, 00 and 16 of an SNA.\0\
          Y0\0\
          Y1\0\
          Y2\0\
          # Check 12 of a step's texts in a reply.\0\
          YF\0\
          YG\0\
          YH\0\
          YI\0\
          YJ\0\
          YK\0\
          YL\0\
          YM\0\
          YN\0\
          YO\0\
          YP\0\
          YQ\0\
          YR\0\
          YS\0\
          # Check 12: another step, step 256, a step for a timer, a timer for a step, a step for an SNA.\0\
          Y3\0\
          Y4\0\
          Y5\0\
          Y6\0\
          Y7\0\
          # Checks 11 and 12 of the request come before.\0\
          Y8\0\
          Y9\0\
          Pv\0\
          Px\0\
          Ps\0\
          Pt\0\
          # An area of 63 bytes.\0\
          yA\0\
          yE\0\
          y3\0\
          y8\0\
          # Replies read: statuses, and a step with leading zeros.\0\
          Pt\x021 E16\x03P\0\
          Pt\x021 E11\x03W\0\
          Pa\x021 16\x03\x15\0\
          Pt\x021 0007 MOVE A\x03E\0\
          Pu\x0299 255 COMMANDS FIRST-11 SECOND-2 THIRD--3 FOURTH-4\x03&\0\
          # Check 15: another station, another step, no step, a step alone, a status of an SN.\0\
          Pt\x022 7 MOVE\x03\x17\0\
          Pt\x021 8 MOVE\x03\x1b\0\
          Pt\x021 MOVE A\x03b\0\
          Pt\x021 7\x03%\0\
          Pt\x021 16\x03\x15\0\
          Pu\x0299 256 MOVE\x03#\0\
          # Check 15: five data, a text of 9 characters, empty texts.\0\
          Pt\x021 7 MOVE A B A B A\x03u\0\
          Pt\x021 7 ABCDEFGHI\x03D\0\
          Pt\x021 7 MOVE ABCDEFGHI\x03u\0\
          Pt\x021 7  A\x03d\0\
          Pt\x021 7 MOVE \x034\0\
          Pt\x021 7 \x03\x05\0\
          # Check 15: a step for a timer, a timer for a step, a step and E16 for an SNA.\0\
          PI\x021 7 MOVE\x03\x14\0\
          Pt\x021 9.99\x03\x05\0\
          Pa\x021 7 MOVE\x03\x14\0\
          Pa\x021 E16\x03P\0\
          # Served: check 16 before the first write, after check 11.\0\
          setup 1 2 3 4\0\
          memory\0\
          S\x021 LNA 0\x03A\0\
          S\x021 LNA 7\x03F\0\
          S\x021 LNA 255\x03C\0\
          S\x021 LNA 256\x03@\0\
          S\x021 SNA 256 MOVE\x03n\0\
          S\x024 LNA 255\x03F\0\
          memory\0\
          # Steps written and read, with no data to four.\0\
          S\x021 SNA 7 MOVE\x03h\0\
          S\x021 LNA 7\x03F\0\
          S\x021 SNA 0 A POINT-99\x03~\0\
          S\x021 LNA 0\x03A\0\
          S\x021 SNA 8 POINT-99 A B\x03\x14\0\
          S\x021 LNA 8\x03I\0\
          S\x021 SNA 9 !~ A POINT-99 B\x03j\0\
          S\x021 LNA 9\x03H\0\
          S\x021 SNA 255 COMMANDS FIRST-11 SECOND-2 THIRD--3 FOURTH-4\x03k\0\
          S\x021 LNA 255\x03C\0\
          memory\0\
          # The same steps of other arms are empty. Each arm has its own, the last of slot 3 at the memory's end.\0\
          S\x022 LNA 7\x03E\0\
          S\x022 LNA 0\x03B\0\
          S\x024 LNA 255\x03F\0\
          S\x022 SNA 0 TWO\x031\0\
          S\x023 SNA 7 THREE 3\x03&\0\
          S\x024 SNA 255 COMMANDS FIRST-11 SECOND-2 THIRD--3 FOURTH-4\x03n\0\
          S\x024 LNA 255\x03F\0\
          S\x022 LNA 0\x03B\0\
          S\x023 LNA 7\x03D\0\
          S\x021 LNA 0\x03A\0\
          S\x021 LNA 7\x03F\0\
          S\x022 LNA 7\x03E\0\
          memory\0\
          # A shorter step over a longer: the old data are gone.\0\
          S\x021 SNA 255 AB C\x03\x1c\0\
          S\x021 LNA 255\x03C\0\
          S\x021 SNA 255 D\x038\0\
          S\x021 LNA 255\x03C\0\
          memory\0\
          # A refused SNA leaves the step.\0\
          S\x023 SNA 7 ABCDEFGHI\x03:\0\
          S\x023 SNA 7\x03[\0\
          S\x023 SNA 7 MOVE A B A B A\x03\x0b\0\
          S\x023 SNA 256 MOVE\x03l\0\
          S\x029 SNA 7 MOVE\x03`\0\
          S\x023 sna 7 MOVE\x03J\0\
          N\x023 SNA 7 MOVE\x03j\0\
          S\x023 LNA 7\x03D\0\
          S\x023 LNA 7 1\x03U\0\
          S\x023 lna 7\x03d\0\
          N\x023 LNA 7\x03D\0\
          memory\0\
          # Tables and steps are apart.\0\
          S\x023 SNT 7 1.25\x03v\0\
          S\x023 LNA 7\x03D\0\
          S\x023 SNA 7 THREE 33\x03\x15\0\
          S\x023 LNT 7\x03Q\0\
          S\x023 LNA 7\x03D\0\
          # A refused setup leaves the memory, an accepted one clears it.\0\
          setup 1 2 1 0\0\
          memory\0\
          setup 1 2 3 4\0\
          memory\0\
          S\x023 LNA 7\x03D\0\
          S\x021 LNA 7\x03F\0\
          # The longest request and the longest reply, of 58 and 54 bytes.\0\
          setup 0 0 99 0\0\
          S\x0299 SNA 255 COMMANDS FIRST-11 SECOND-2 THIRD--3 FOURTH-4\x03Z\0\
          S\x0299 LNA 255\x03r\0\
          memory\0\
          # Check 1 of a lent memory, before check 13: one byte less, one more, none. It is untouched, and no slot is fitted.\0\
          lent 40959 setup 1 2 3 4\0\
          lent 40959 setup 1 1 0 0\0\
          lent 40961 setup 1 2 3 4\0\
          lent 40961 setup 1 1 0 0\0\
          lent 0 setup 1 2 3 4\0\
          lent 0 setup 1 1 0 0\0\
          # A setup refused by check 13 leaves a lent memory untouched, an accepted one clears every byte.\0\
          lent 40960 setup 1 1 0 0\0\
          lent 40960 setup 100 0 0 0\0\
          lent 40960 setup 1 2 3 4\0\
          lent 40960 setup 0 0 0 0\0\
          # Check 1 of a lent memory, before check 2, for every served frame.\0\
          setup 1 2 3 4\0\
          S\x021 SNA 7 MOVE\x03h\0\
          S\x021 SNT 5 1.25\x03v\0\
          lent 40959 serving =\x021 LNA 7\x03F\0\
          lent 40959 serving =\x021 SNA 7 MOVE A\x03\x09\0\
          lent 40959 serving =\x021 LNT 5\x03Q\0\
          lent 40959 serving =\x021 SNT 5 9.99\x03y\0\
          lent 40959 serving =\x029 LNA 7\x03N\0\
          lent 40959 serving =\x021 LNA 256\x03@\0\
          lent 40959 serving =\x021 sna 7 A\x03\x18\0\
          lent 40959 serving =\0\
          lent 40961 serving =\x021 LNA 7\x03F\0\
          lent 40961 serving =\x021 SNA 7 MOVE A\x03\x09\0\
          lent 40961 serving =\x021 LNT 5\x03Q\0\
          lent 40961 serving =\x021 SNT 5 9.99\x03y\0\
          lent 40961 serving =\x029 LNA 7\x03N\0\
          lent 40961 serving =\x021 LNA 256\x03@\0\
          lent 40961 serving =\x021 sna 7 A\x03\x18\0\
          lent 40961 serving =\0\
          lent 0 serving =\x021 LNA 7\x03F\0\
          lent 0 serving =\x021 SNA 7 MOVE A\x03\x09\0\
          lent 0 serving =\x021 LNT 5\x03Q\0\
          lent 0 serving =\x021 SNT 5 9.99\x03y\0\
          lent 0 serving =\x029 LNA 7\x03N\0\
          lent 0 serving =\x021 LNA 256\x03@\0\
          lent 0 serving =\x021 sna 7 A\x03\x18\0\
          lent 0 serving =\0\
          # Bytes 07h are no characters: the step is empty. Nothing above has touched the box's own memory.\0\
          lent 40960 serving =\x021 LNA 7\x03F\0\
          lent 40960 serving =\x021 LNT 5\x03Q\0\
          lent 40960 serving =\0\
          S\x021 LNA 7\x03F\0\
          memory\0\
          # Bytes that no call leaves: a text ends before the first that is no character.\0\
          setup 1 2 3 4\0\
          bytes slot 0 step 1 text 0 =AB\x1fCD\0\
          S\x021 LNA 1\x03@\0\
          bytes slot 0 step 2 text 0 =AB CD\0\
          S\x021 LNA 2\x03C\0\
          bytes slot 0 step 3 text 0 =AB\x7fCD\0\
          S\x021 LNA 3\x03B\0\
          bytes slot 0 step 4 text 0 =AB\x80CD\0\
          S\x021 LNA 4\x03E\0\
          bytes slot 0 step 5 text 0 =AB\xffCD\0\
          S\x021 LNA 5\x03D\0\
          bytes slot 0 step 6 text 0 =MOVE\0\
          bytes slot 0 step 6 text 1 =A\x01B\0\
          bytes slot 0 step 6 text 2 =!~ ~!\0\
          S\x021 LNA 6\x03G\0\
          # The data end before the first that is empty: no bytes, or a first byte that is no character.\0\
          bytes slot 0 step 10 text 0 =MOVE\0\
          bytes slot 0 step 10 text 2 =B\0\
          S\x021 LNA 10\x03p\0\
          bytes slot 0 step 11 text 0 =MOVE\0\
          bytes slot 0 step 11 text 1 =\xffA\0\
          bytes slot 0 step 11 text 2 =B\0\
          S\x021 LNA 11\x03q\0\
          bytes slot 0 step 12 text 0 =MOVE\0\
          bytes slot 0 step 12 text 1 =A\0\
          bytes slot 0 step 12 text 2 =B\0\
          bytes slot 0 step 12 text 4 =D\0\
          S\x021 LNA 12\x03r\0\
          bytes slot 0 step 13 text 0 =MOVE\0\
          bytes slot 0 step 13 text 1 =A\0\
          bytes slot 0 step 13 text 3 =CC\0\
          bytes slot 0 step 13 text 4 =D\0\
          S\x021 LNA 13\x03s\0\
          # A step whose command is empty is empty.\0\
          bytes slot 0 step 14 text 1 =A\0\
          S\x021 LNA 14\x03t\0\
          bytes slot 0 step 15 text 0 = MOVE\0\
          bytes slot 0 step 15 text 1 =A\0\
          S\x021 LNA 15\x03u\0\
          bytes slot 0 step 16 text 0 =\x7f\0\
          S\x021 LNA 16\x03v\0\
          # Eight characters and no zero, over the last step of slot 0 and the first of slot 1.\0\
          bytes slot 0 step 255 text 0 =ABCDEFGHIJKLMNOPQRSTUVWXYZabcdefghijklmnopqrstuvwxyz\0\
          S\x021 LNA 255\x03C\0\
          S\x022 LNA 0\x03B\0\
          # A step written over such bytes takes all 40.\0\
          bytes slot 2 step 3 text 0 =\xff\xff\xff\xff\xff\xff\xff\xff\xff\xff\xff\xff\xff\xff\xff\xff\xff\xff\xff\xff\xff\xff\xff\xff\xff\xff\xff\xff\xff\xff\xff\xff\xff\xff\xff\xff\xff\xff\xff\xff\0\
          S\x023 LNA 3\x03@\0\
          S\x023 SNA 3 MOVE A\x03\x0f\0\
          S\x023 LNA 3\x03@\0\
          memory\0\
          # The ends of the steps.\0\
          setup 1 0 0 0\0\
          R0 LNA -1 0 255 256\0\
          R1 SNA -1 0 255 256 ABCDEFGHI A ABCDEFGH ABCDEFGHI\0",
    );
}
