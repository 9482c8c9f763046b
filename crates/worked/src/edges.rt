// Bad input, and the refusal that each gets.
use crate::say;
use crate::say::{Numbers, Said};
use burst::Region;
use descriptors::record::{TOP, TransferDirection};
use descriptors::split;
use psram::chip::Chip;
use psram::{cut, list, piece};
use std::io;

fn split(rt: &impl Print, n: usize, len: usize) -> io::Result<()> {
    let parts = split::split_of(n, len).map(|s| Numbers([s.chunk, s.rest]));
    println!(rt; "split {n} {len} {}", Said(parts))
}

fn align(rt: &impl Print, address: u32, length: u32, alignment: u32) -> io::Result<()> {
    let internal = Region {
        start: 0,
        end: TOP as u64,
    };
    let external = Region { start: 0, end: 0 };
    let answer = burst::ensure_buffer_compatible(
        address,
        length,
        TransferDirection::In,
        internal,
        external,
        alignment,
        1,
    );
    println!(rt;
        "align {address} {length} {alignment} {}",
        say::done(answer)
    )
}

fn cut_at(rt: &impl Print, address: u32, length: u32) -> io::Result<()> {
    let parts = cut::cut(address, length, Chip::Ordinary).map(|c| Numbers([
        c.head, c.middle, c.tail,
    ]));
    println!(rt; "cut {address} {length} {}", Said(parts))
}

fn pieces(rt: &impl Print, n: usize, address: u32, length: u32, store: usize) -> io::Result<()> {
    let listed = list::build_descriptor_list_for_psram(
        &mut [0; 64],
        &mut [0; 320],
        n,
        address,
        length,
        Chip::Ordinary,
        store,
    );
    let said = Said(listed.map(|l| Numbers([l.covered, l.used])));
    println!(rt; "pieces {n} {length} {store} {said}")
}

fn numbered(rt: &impl Print, i: usize) -> io::Result<()> {
    let answer = piece::piece_refusal(&[0; 32], &[0; 100], 64, 13, Chip::Ordinary, i);
    println!(rt; "piece {i} {}", say::done(answer))
}

fn splits(rt: &impl Print) -> io::Result<()> {
    split(rt, 0, 14)?;
    split(rt, 3, 14)?;
    split(rt, 4, 0)?;
    split(rt, 4, 16384)?;
    split(rt, 65, 14)?;
    split(rt, usize::MAX, 14)
}

fn alignments(rt: &impl Print) -> io::Result<()> {
    align(rt, 16, 16, 0)?;
    align(rt, 16, 16, 3)?;
    align(rt, 64, 64, 64)?;
    align(rt, 128, 128, 128)?;
    align(rt, 16, 16, 2147483648)?;
    align(rt, 17, 16, 16)?;
    align(rt, 16, 17, 16)?;
    align(rt, 17, 0, 16)?;
    align(rt, 4294967280, 16, 16)?;
    align(rt, 4294967280, 32, 16)
}

pub fn run(rt: &impl Print) -> io::Result<()> {
    splits(rt)?;
    alignments(rt)?;
    cut_at(rt, 0, 0)?;
    cut_at(rt, 4294967280, 16)?;
    cut_at(rt, 4294967280, 17)?;
    pieces(rt, 64, 0, 8170, 32)?;
    pieces(rt, 2, 0, 8170, 32)?;
    pieces(rt, 0, 0, 8170, 32)?;
    pieces(rt, 64, 0, 8170, 31)?;
    pieces(rt, 65, 0, 8170, 32)?;
    numbered(rt, 2)?;
    numbered(rt, 3)
}
