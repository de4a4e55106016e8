ghost use Rattle.std.specs.Prelude.{◌≡◌, ◌<◌, ◌^◌, ◌≤◌, ◌+◌, ◌*◌, ◌++◌, length, replicate, slice_index};
ghost use Rattle.vm_state.specs.Start.{memory_with_image};
ghost use Rattle.vv_base.specs.Bytes.{long_at, overwritten};

use vax_hw::Hardware;

/// The byte at a place of an image in zeros.
fn image_byte(image: &[u8], load: u32, at: u32) -> u8
    ensures { result ≡ slice_index (replicate load 0 ++ image.now) at }
{
    if at < load {
        0
    } else {
        image.get((at - load) as usize).copied().unwrap_or(0)
    }
}

/// The longword at a place of an image in zeros.
fn image_long(image: &[u8], load: u32, at: u32) -> u32
    requires { at < 2 ^ 30 }
    ensures { result ≡ long_at (replicate load 0 ++ image.now) at }
{
    u32::from_le_bytes([
        image_byte(image, load, at),
        image_byte(image, load, at + 1),
        image_byte(image, load, at + 2),
        image_byte(image, load, at + 3),
    ])
}

/// Clears `pages` pages of the machine from the page `base` on and copies an image to a place in them; no other byte changes.
pub fn load_image<H: Hardware>(machine: &mut H, base: u32, pages: u32, load: u32, image: &[u8])
    requires place { base + pages ≤ 65536 }
    requires inside { 512 * base + 512 * pages ≤ length (H.machine machine.old).memory }
    requires fits { load + length image.now ≤ 512 * pages }
    ensures { H.machine machine.new ≡ record (H.machine machine.old) {
      memory = overwritten (H.machine machine.old).memory (512 * base)
          (memory_with_image (512 * pages) load image.now);
    } }
{
    let first = 512 * base;
    for number in 0..128 * pages {
        let at = 4 * number;
        machine.write_long(first + at, image_long(image, load, at));
    }
}
