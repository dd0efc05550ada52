// Pictures that are run: the raster goes uncopied from the reader to the table and to the mapper.
// Held to the file stdout beside src/. A line of a picture is refusal, offset, width, height, the
// raster's first place and its length; then come the lines of the table and of the mapping, those
// of palettes with twins, and those of pictures with comments.
#![tactic(auto)]

use arrays::map_numbers;
use printing::{field, row};
use refusal::number_in;
use std::io;
use table::Record;

// The line of a picture.
fn show_picture(rt: &impl Print, input: &[u8]) -> io::Result<()> {
    let (number, offset, width, height, start) = match p6::read_picture(input) {
        Ok(picture) => (0, 0, picture.width, picture.height, picture.start),
        Err(fault) => (u8::from(fault.refusal), fault.offset, 0, 0, 0),
    };
    field(rt, number)?;
    field(rt, offset)?;
    field(rt, width)?;
    field(rt, height)?;
    field(rt, start)?;
    field(rt, p6::raster_of(input).len())?;
    println!(rt)
}

// The line of a table: refusal, pixels taken, used entries, and its keys and weights.
fn show_table(rt: &impl Print, input: &[u8]) -> io::Result<()> {
    let mut keys = [0u32; 2];
    let mut weights = [0u32; 2];
    let empty = Record {
        used: 0,
        pixels: 0,
        red: 0,
        green: 0,
        blue: 0,
    };
    let a = table::add_strip(empty, &mut keys, &mut weights, p6::raster_of(input));
    let rec = a.rec;
    field(rt, refusal::number_in(a.refusal))?;
    field(rt, a.taken)?;
    field(rt, rec.used)?;
    row(rt, &keys)?;
    row(rt, &weights)?;
    println!(rt)
}

// The line of a mapping to the palette (3,0,0), (9,0,0): refusal, error, and the index bytes, of
// which the first and the last are not in the stretch.
fn show_mapping(rt: &impl Print, input: &[u8]) -> io::Result<()> {
    let palette = [3u8, 0, 0, 9, 0, 0];
    let mut index = [7u8; 6];
    let answer = mapping::map_strip(p6::raster_of(input), &palette, &mut index, 1);
    field(rt, number_in(answer.err().map(|unmapped| unmapped.refusal)))?;
    field(rt, answer.map_or(0, |mapped| mapped.error))?;
    row(rt, &index)?;
    println!(rt)
}

// The line of a mapping that may meet twins: refusal, their numbers, and the index bytes.
fn show_twins(rt: &impl Print, strip: &[u8], palette: &[u8]) -> io::Result<()> {
    let mut index = [7u8; 2];
    let answer = mapping::map_strip(strip, palette, &mut index, 0);
    let numbers = map_numbers(answer);
    field(rt, number_in(answer.err().map(|unmapped| unmapped.refusal)))?;
    row(rt, &numbers[5..])?;
    row(rt, &index)?;
    println!(rt)
}

// A pixel mapped to entries that all differ, at a tie to the lower number; neighbours, the first
// and the last, two pairs, three equal entries, and a strip of no pixels. Entries that differ in
// one channel are no twins.
fn small_palettes(rt: &impl Print) -> io::Result<()> {
    show_twins(rt, b"aaa", b"ccc___zzz")?;
    show_twins(rt, b"aaa", b"aaabbbbbbccc")?;
    show_twins(rt, b"aaa", b"aaabbbcccaaa")?;
    show_twins(rt, b"aaa", b"aaabbbbbbaaa")?;
    show_twins(rt, b"aaa", b"abcaaaabcabc")?;
    show_twins(rt, b"", b"aaaaaa")?;
    show_twins(rt, b"aab", b"aaaaabababaa")
}

// Twins with what is tested before them, a bad strip and a bad palette, and with what is tested
// behind them, a room that is short; and that room with entries that differ.
fn twins_and_others(rt: &impl Print) -> io::Result<()> {
    show_twins(rt, b"aaaa", b"aaaaaa")?;
    show_twins(rt, b"aaa", b"aaaaaaa")?;
    show_twins(rt, b"aaabbbccc", b"aaaaaa")?;
    show_twins(rt, b"aaabbbccc", b"aaabbb")
}

// 64 entries that all differ; then the last is the first, and then the one before it the second.
fn most_entries(rt: &impl Print) -> io::Result<()> {
    let mut palette = [b'0'; 192];
    texts::put_word(
        &mut palette,
        0,
        b"000001002003004005006007010011012013014015016017",
    );
    texts::put_word(
        &mut palette,
        48,
        b"020021022023024025026027030031032033034035036037",
    );
    texts::put_word(
        &mut palette,
        96,
        b"040041042043044045046047050051052053054055056057",
    );
    texts::put_word(
        &mut palette,
        144,
        b"060061062063064065066067070071072073074075076077",
    );
    show_twins(rt, b"077000", &palette)?;
    texts::put_word(&mut palette, 189, b"000");
    show_twins(rt, b"077000", &palette)?;
    texts::put_word(&mut palette, 186, b"001");
    show_twins(rt, b"077000", &palette)
}

// Inputs that end early, go wrong, or have a size, a depth or a raster that does not pass; the last
// one passes.
fn small_pictures(rt: &impl Print) -> io::Result<()> {
    show_picture(rt, b"")?;
    show_picture(rt, b"P6 0 1 255")?;
    show_picture(rt, b"P6 0 1 255 ")?;
    show_picture(rt, b"P6 000002 1 255 123456")?;
    show_picture(rt, b"P6 16384 1025 255 ")?;
    show_picture(rt, b"P6 2 1 254 123456")?;
    show_picture(rt, b"P6 2 1 255 12345")?;
    show_picture(rt, b"P6 2 1 255 1234567")?;
    show_picture(rt, b"P6 2 1 255  123456")?;
    show_picture(rt, b"P6 2 1 255 123456")
}

// Headers with comments that count as white bytes: right after the letters, after a number and
// before the depth, ended by LF, CR and CR LF, several in a row, with NUL and the opening byte
// inside.
fn commented_pictures(rt: &impl Print) -> io::Result<()> {
    show_picture(rt, b"P6#c\n2 1 255 123456")?;
    show_picture(rt, b"P6 2#\n1 255 123456")?;
    show_picture(rt, b"P6\n# one\r\n#two\r #\n2 1\n255\n123456")?;
    show_picture(rt, b"P6 2 1 #\0#7\n255 123456")?;
    show_picture(rt, b"P6 2 1#\n255\n#23456")
}

// Headers with bytes that open no comment: before and inside the letters, after the depth; and
// comments that never end.
fn miscommented_pictures(rt: &impl Print) -> io::Result<()> {
    show_picture(rt, b"#\nP6 2 1 255 123456")?;
    show_picture(rt, b"P#\n6 2 1 255 123456")?;
    show_picture(rt, b"P6 2 1 255#\n123456")?;
    show_picture(rt, b"P6#")?;
    show_picture(rt, b"P6 2 # 1 255 123456")
}

// A comment of 60,000 bytes, and the same without its end.
fn long_comment(rt: &impl Print) -> io::Result<()> {
    let mut input = [b'#'; 60013];
    texts::put_word(&mut input, 0, b"P6");
    texts::put_word(&mut input, 60001, b"\n1 1 255 ");
    show_picture(rt, &input)?;
    texts::put_word(&mut input, 60001, b"#");
    show_picture(rt, &input)
}

fn main(rt: HostRuntime) -> io::Result<()> {
    small_pictures(&rt)?;
    let drawing = b"P6\n2 2\n255\n\x00\x00\x00\x00\x00\x00\x00\x00\x00\x0a\x00\x00";
    show_picture(&rt, drawing)?;
    show_table(&rt, drawing)?;
    show_mapping(&rt, drawing)?;
    small_palettes(&rt)?;
    twins_and_others(&rt)?;
    most_entries(&rt)?;
    commented_pictures(&rt)?;
    miscommented_pictures(&rt)?;
    long_comment(&rt)
}
