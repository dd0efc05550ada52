// Inputs listed one after the other, held to the file stdout beside src/: every refusal that a
// listing can print, the scope's example, one shade, runs of four rounds and of 20, 64 shades,
// 8,192 pixels and 8,193, 65,536 bytes and 65,537, headers with comments.
#![tactic(auto)]

use std::io;

// Prints the listing of an input.
fn show(rt: &impl Print, input: &[u8]) -> io::Result<()> {
    let l = listing::list_shades(input);
    let text = l.text;
    let length = l.length;
    rt.write_all(&text[..length])
}

// Count lines that are malformed, and counts that a run refuses: 4.
fn bad_counts(rt: &impl Print) -> io::Result<()> {
    show(rt, b"")?;
    show(rt, b"1")?;
    show(rt, b"\nP6 1 1 255 abc")?;
    show(rt, b"100\nP6 1 1 255 abc")?;
    show(rt, b"1\r\nP6 1 1 255 abc")?;
    show(rt, b"0\nP6 1 1 255 abc")?;
    show(rt, b"65\nP6 1 1 255 abc")
}

// More shades than colours, 5; then a header, sizes, a depth and a raster that do not pass: 12, 13
// twice, 13 before 14, 14, 15.
fn bad_pictures(rt: &impl Print) -> io::Result<()> {
    show(rt, b"2\nP6 1 1 255 abc")?;
    show(rt, b"1\nP5 1 1 255 abc")?;
    show(rt, b"1\nP6 0 1 255 ")?;
    show(rt, b"1\nP6 8193 1 255 ")?;
    show(rt, b"1\nP6 91 91 254 ")?;
    show(rt, b"1\nP6 1 1 254 abc")?;
    show(rt, b"1\nP6 1 1 255 abcd")
}

// The scope's example; one shade, also with a leading zero in its count; two shades that settle in
// the fourth round.
fn accepted(rt: &impl Print) -> io::Result<()> {
    show(rt, b"2\nP6\n2 2\n255\n\0\0\0\0\0\0\0\0\0\n\0\0")?;
    show(rt, b"1\nP6 2 1 255 abcdef")?;
    show(rt, b"01\nP6\n1 2\n255\nabcdef")?;
    show(rt, b"2\nP6 5 1 255 abaaoksrtfkdtoo")
}

// The same drawings with comments in their headers, as drawing programs write them; and a comment
// that never ends, 12.
fn commented(rt: &impl Print) -> io::Result<()> {
    show(rt, b"2\nP6\n# drawn\n2 2\n255\n\0\0\0\0\0\0\0\0\0\n\0\0")?;
    show(rt, b"1\nP6#\r\n2#\n1 # depth\n255 abcdef")?;
    show(rt, b"1\nP6 2 1 # 255 abcdef")
}

// A run that is not settled at 20 rounds: 80 colours on a line, six shades.
fn not_settled(rt: &impl Print) -> io::Result<()> {
    let mut input = [0u8; 254];
    texts::put_word(&mut input, 0, b"6\nP6 80 1 255 ");
    texts::put_word(
        &mut input,
        14,
        b"!!!!!#!!$!!%!!&!!'!!(!!*!!+!!,!!-!!.!!0!!1!!2!!3!!4!!5!!6!!7!!9!",
    );
    texts::put_word(
        &mut input,
        78,
        b"!:!!;!!<!!=!!>!!@!!A!!B!!C!!D!!F!!G!!H!!I!!J!!K!!L!!M!!N!!O!!P!!",
    );
    texts::put_word(
        &mut input,
        142,
        b"R!!T!!U!!V!!W!!X!!Y!!Z!![!!]!!^!!_!!a!!b!!c!!d!!e!!f!!g!!h!!i!!j",
    );
    texts::put_word(
        &mut input,
        206,
        b"!!k!!l!!m!!n!!q!!r!!u!!v!!w!!x!!y!!z!!{!!|!!}!!~",
    );
    show(rt, &input)
}

// 64 shades of 64 colours.
fn most_shades(rt: &impl Print) -> io::Result<()> {
    let mut input = [0u8; 207];
    texts::put_word(&mut input, 0, b"64\nP6 64 1 255 ");
    texts::put_word(
        &mut input,
        15,
        b"0000010020030040050060070080090100110120130140150160170180190200",
    );
    texts::put_word(
        &mut input,
        79,
        b"2102202302402502602702802903003103203303403503603703803904004104",
    );
    texts::put_word(
        &mut input,
        143,
        b"2043044045046047048049050051052053054055056057058059060061062063",
    );
    show(rt, &input)
}

// 8,192 pixels of one colour: 24,592 bytes.
fn most_pixels(rt: &impl Print) -> io::Result<()> {
    let mut input = [7u8; 24592];
    texts::put_word(&mut input, 0, b"1\nP6 8192 1 255 ");
    show(rt, &input)
}

// 65,536 bytes are not too long, so that the blanks after the count line are told: 12. One more is:
// 13, but a malformed count line is told first: 4.
fn most_bytes(rt: &impl Print) -> io::Result<()> {
    let mut fits = [32u8; 65536];
    texts::put_word(&mut fits, 0, b"1\n");
    show(rt, &fits)?;
    let mut long = [32u8; 65537];
    show(rt, &long)?;
    texts::put_word(&mut long, 0, b"1\n");
    show(rt, &long)
}

fn main(rt: HostRuntime) -> io::Result<()> {
    bad_counts(&rt)?;
    bad_pictures(&rt)?;
    accepted(&rt)?;
    not_settled(&rt)?;
    most_shades(&rt)?;
    most_pixels(&rt)?;
    most_bytes(&rt)?;
    commented(&rt)
}
