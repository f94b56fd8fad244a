// AES-GCM.
ghost use Rattle.std.specs.Prelude.{◌≡◌, length};

use bits::portion::Portion;
use gcm::gctr::crypt;
use gcm::subkey::subkey;
use gcm::tag::tag_parts;
use lines::arrays::padded;
use lines::hex::Hex;
use std::io;

// Associated data and a text, which begins at byte `from`: the same with the text encrypted, and the tag behind it. After an error of printing, the text is
// encrypted all the same.
pub fn sealed(rt: &impl Print, key: &[u8], iv: &[u8], from: u64, buf: &mut [u8]) -> io::Result<()>
    ensures { length buf.new ≡ length buf.old }
{
    let from = from as usize;
    if buf.len() > 4096 || buf.len() < from {
        return Ok(());
    }
    let key = padded(key);
    let iv = padded(iv);
    let portion = Portion {
        first: from,
        stop: from,
        rest: from,
    };
    crypt(key, iv, buf, portion);
    let (data, text) = buf.split_at(from);
    let tag = tag_parts(key, subkey(key), iv, data, text);
    println!(rt; "{}{}", Hex(buf), Hex(&tag))
}
