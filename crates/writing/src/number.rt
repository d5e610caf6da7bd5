// Bytes, and numbers written in several bytes, high byte first. Where the buffer has no room for all of them nothing is written.
ghost use Rattle.std.specs.Prelude.{◌≡◌};
ghost use Rattle.plan_reading.specs.FieldBytes.{bytes2, bytes4};
ghost use Rattle.writing.specs.Laid.{bytes1, laid};

pub fn put_bytes(out: &mut [u8], bytes: &[u8])
    ensures { out.new ≡ laid bytes.now out.old }
{
    if bytes.len() <= out.len() {
        out[..bytes.len()].copy_from_slice(bytes);
    }
}

pub fn put1(out: &mut [u8], n: u8)
    ensures { out.new ≡ laid (bytes1 n) out.old }
{
    put_bytes(out, &[n]);
}

pub fn put2(out: &mut [u8], n: u16)
    ensures { out.new ≡ laid (bytes2 n) out.old }
{
    let bytes: [u8; 2] = n.to_be_bytes();
    put_bytes(out, &bytes);
}

pub fn put4(out: &mut [u8], n: u32)
    ensures { out.new ≡ laid (bytes4 n) out.old }
{
    let bytes: [u8; 4] = n.to_be_bytes();
    put_bytes(out, &bytes);
}
