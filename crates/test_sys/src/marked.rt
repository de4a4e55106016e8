ghost use Rattle.std.specs.Prelude.{◌≡◌, [], ◌∷◌, All, IfOk, IfSome, map, vec_len};
ghost use Rattle.sys_objects.specs.Condition.{IsVolume};

use std::alloc::Global;
use std::test::Fail;
use sys_devices::{load_volumes, store_volumes};
use sys_objects::VolumeRow;
use sys_store::Volumes;
use vv_base::object_name;
use vv_class::read_class;
use vv_io::{Drive, MemDrive};

/// The row of a volume of three blocks on drive 5.
fn row() -> Option<VolumeRow>
    ensures volume { IfSome result (λ row. IsVolume row) }
    ensures drive { IfSome result (λ row. row.drive ≡ 5) }
    ensures blocks { IfSome result (λ row. row.blocks ≡ 3) }
{
    Some(VolumeRow {
        name: object_name(b"V")?,
        drive: 5,
        blocks: 3,
        class: read_class(b"0{};0{}").ok()?,
    })
}

/// Drives of three blocks of ones.
fn drives(alloc: Global) -> Result<Vec<Box<dyn Drive>>, Fail>
    ensures { IfOk result (λ drives. vec_len drives ≡ 16) }
{
    let mut drives: Vec<Box<dyn Drive>> = Vec::new(alloc);
    for _number in 0..16u8 {
        let blocks = vec![in alloc; [1; 512]; 3]?;
        drives.push(Box::new(alloc, MemDrive::new(blocks, Vec::new(alloc)))?)?;
    }
    Ok(drives)
}

/// The first byte of a block of drive 5.
fn byte_of(drives: &mut Vec<Box<dyn Drive>>, block: u32) -> Option<u8>
    requires { vec_len drives.old ≡ 16 }
    ensures { vec_len drives.new ≡ vec_len drives.old }
{
    let drive = &mut drives[5];
    let mut bytes = [0; 512];
    if block < drive.blocks() {
        drive.get(block, &mut bytes).ok()?;
    }
    Some(bytes[0])
}

/// A volume of zeros isn't stored to a drive that is marked.
#[test]
fn a_marked_drive_is_left(rt: HostRuntime) -> Result<(), Fail> {
    let rows = [row().ok_or("a row")?];
    let mut drives = drives(rt.alloc())?;
    load_volumes(rt.alloc(), &rows, &mut drives)?;
    let volumes = Volumes::new(rt.alloc(), &[3])?;
    let mut marks = [false; 16];
    marks[5] = true;
    store_volumes(&rows, &volumes, &mut marks, &mut drives);
    assert!(rt; marks[5]);
    for block in 0..3u32 {
        assert_eq!(rt; byte_of(&mut drives, block), Some(1));
    }
    Ok(())
}
