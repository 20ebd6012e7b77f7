// Writes the SHA-256 digests of NIST's examples of at most 1,005 bytes, and of messages about the ends
// of blocks. Each line is COUNT BYTES DIGEST: the message is BYTES, in hexadecimal, repeated COUNT
// times. The expected lines are NIST's own (tests/data/nist-sha256.txt); those of `test_edges` come from
// another implementation.
#![tactic(auto)]

fn main() {
    whole(b"");
    whole(b"abc");
    whole(b"abcdbcdecdefdefgefghfghighijhijkijkljklmklmnlmnomnopnopq");
    whole(
        b"abcdefghbcdefghicdefghijdefghijkefghijklfghijklmghijklmnhijklmnoijklmnopjklmnopqklmnopqrlmnopqrsmnopqrstnopqrstu",
    );
    whole(&[0xbd]);
    whole(&[0xc9, 0x8c, 0x8e, 0x55]);
    for n in [55, 56, 57, 64, 1000] {
        repeated(0x00, n);
    }
    repeated(0x41, 1000);
    repeated(0x55, 1005);
    edges();
}

// Lengths on both sides of the end of a block, and of the last length whose padding needs no block more.
fn edges() {
    for n in [55, 56, 57, 63, 64, 65, 119, 120, 121, 127, 128, 129] {
        repeated(0xff, n);
    }
}

// The line of the message s.
fn whole(s: &[u8]) {
    line(1, s, s);
}

// The line of n times the byte x, n at most 1,005; nothing where n is more.
fn repeated(x: u8, n: usize) {
    if let Some(message) = [x; 1005].get(..n) {
        line(n as u64, &[x], message);
    }
}

// The line of a message that is `bytes` repeated `count` times. No bytes are written as `-`.
fn line(count: u64, bytes: &[u8], message: &[u8]) {
    io::print_decimal(1, count);
    io::write_all(1, b" ");
    if bytes.is_empty() {
        io::write_all(1, b"-");
    }
    write_hex(bytes);
    io::write_all(1, b" ");
    write_hex(&sha256_digest::digest(message));
    io::write_all(1, b"\n");
}

// Writes two digits for each byte of s.
fn write_hex(s: &[u8]) {
    for x in s {
        io::print_hex(1, u64::from(*x), 2);
    }
}
