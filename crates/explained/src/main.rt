// What `explain` tells of some stages: each refusal, places on several lines, tabs, wide characters, names
// beyond ASCII, long lines, trees.
#![tactic(auto)]

use room::STDOUT;
use table::ROW_WORDS;

fn show(s: &[u8]) {
    let mut t = [0u32; ROW_WORDS * 128];
    tell::tell(s, &mut t);
    io::write_all(STDOUT, b"\n");
}

fn closings() {
    show(b"<v></w>");
    show(b"<a.b>\n  <c:d>\n  </c:d>\n</a.c>");
    show(b"<></a>");
    show(b"<a\tb>\r\n\t<c/>\r\n</>");
}

fn tokens() {
    show(b"");
    show(b"<a b=c/>");
    show(b"<a>\n\t\t{1 +}</a>");
    show(b"<a>x");
    show(b"<a>1 > 0</a>");
    show(b"<f.b-/>");
    show(b"<a b={ }/>");
    show(b"<a/>\n<b/>");
    show(b"<a/> x");
    show(b"<x>{a, b}</x>");
}

fn unclosed() {
    show(b"<a b='c/>\n  <d e=\"f\"/>\n</a>");
    show(b"<a>/* x */{/* y}\n  {/* z}\n</a>");
    show(b"<a>\n  {f('b', \"c)}</a>");
    show(b"<a>\n  {f('b', \"c)}\n</a>");
    show(b"<a>{'b\\'}</a>");
}

fn bytes() {
    show(b"<a>\xea\xb0\x80\xeb\x82\x98} </a>");
    show(b"<a b=\"\xc3\xa9\t\xf0\x9f\x98\x80\">}</a>");
    show(b"<a>\xc3\xa9\xff\xc3\xa9</a>");
    show(b"<a>\x01}</a>");
}

// Names in the author's script: Korean has two columns, and the two letters of the second stage look the same.
fn names() {
    show(b"<\xed\x95\x9c\xea\xb8\x80>\n  hi\n</\xed\x95\x9c.\xea\xb8\x80>");
    show(b"<\xe2\x84\xab></\xc3\x85>");
    show(b"<\xed\x95\x9c \xc3\x97='1'/>");
    show(b"<\xed\x95\x9c>{\xea\xb8\x80}</\xed\x95\x9c>");
    show(b"<\xed\x95\x9c.\xce\xbb-/>");
    show(
        b"<\xed\x95\x9c \xce\xbb='1' \xce\xb1:\xce\xb2-b>\n  <\xce\xb4-/><a\xce\xb4.\xce\xb5/>\n</\xed\x95\x9c>",
    );
}

fn long_lines() {
    show(
        b"<a>0123456789012345678901234567890123456789012345678901234567890123456789012345678901234567890123456789}012345678901234567890123456789012345678901234567890123456789012345678901234567890123456789</a>",
    );
    show(
        b"<a>\xea\xb0\x80\xea\xb0\x80\xea\xb0\x80\xea\xb0\x80\xea\xb0\x80\xea\xb0\x80\xea\xb0\x80\xea\xb0\x80\xea\xb0\x80\xea\xb0\x80\xea\xb0\x80\xea\xb0\x80\xea\xb0\x80\xea\xb0\x80\xea\xb0\x80\xea\xb0\x80\xea\xb0\x80\xea\xb0\x80\xea\xb0\x80\xea\xb0\x80\xea\xb0\x80\xea\xb0\x80\xea\xb0\x80\xea\xb0\x80\xea\xb0\x80\xea\xb0\x80x}</a>",
    );
}

fn limits() {
    let input = room::input_room();
    show(&input);
    show(
        b"<a><a/><a/><a/><a/><a/><a/><a/><a/><a/><a/><a/><a/><a/><a/><a/><a/><a/><a/><a/><a/><a/><a/><a/><a/><a/><a/><a/><a/><a/><a/><a/><a/><a/><a/><a/><a/><a/><a/><a/><a/><a/><a/><a/></a>",
    );
    show(
        b"<a>{((((((((((((((((((((((((((((((((((((((((((((((((((((((((((((((((1))))))))))))))))))))))))))))))))))))))))))))))))))))))))))))))))}</a>",
    );
}

fn trees() {
    show(b"<v>hi</v>");
    show(b"<a-b.c d e:f='g' {...h} i={<j/>}>\n  {k ? <l/> : <></>}{}{...m}\n</a-b.c>");
    show(b"<this.x y={/* none but this */ 1}/>");
    show(
        b"<t>a text of more than one hundred and forty-four bytes: 0123456789 0123456789 0123456789 0123456789 0123456789 0123456789 0123456789 0123456789 0123456789</t>",
    );
}

fn main() {
    closings();
    tokens();
    unclosed();
    bytes();
    names();
    long_lines();
    limits();
    trees();
}
