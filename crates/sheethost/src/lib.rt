// What a program that runs a sheet needs beside our calls: the two stores at the start, their digests, and a number in four
// bytes.
#![tactic(auto)]

ghost use Rattle.std.specs.Prelude.{◌≡◌, length};
ghost use Rattle.sheethost.specs.Host.{master_store, slave_store, digest_of, four_bytes};

// The master store at the start: byte i is i mod 251.
pub fn fill_master(master: &mut [u8])
    ensures { master.new ≡ master_store (length master.old) }
{
    for i in 0..master.len() {
        master[i] = (i % 251) as u8;
    }
}

// The slave store at the start: zeros.
pub fn fill_slave(slave: &mut [u8])
    ensures { slave.new ≡ slave_store (length slave.old) }
{
    slave.fill(0);
}

// The digest of a store: 1, and then for each byte times 257, plus the byte, plus 1, mod 4,294,967,291.
pub fn digest(store: &[u8]) -> u64
    ensures { result ≡ digest_of store.now }
{
    let mut d: u64 = 1;
    for byte in store {
        d = (d * 257 + u64::from(*byte) + 1) % 4294967291;
    }
    d
}

// The number in four bytes, lowest first.
pub fn four_bytes(bytes: [u8; 4]) -> u32
    ensures { result ≡ four_bytes bytes }
{
    u32::from_le_bytes(bytes)
}
