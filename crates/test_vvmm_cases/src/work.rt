//! What a run is given as one thing: a configuration, a script, images and volumes. It is drawn from a number, or purged to a class.
ghost use Rattle.std.specs.Prelude.{IfOk};
ghost use Rattle.sys_objects.specs.Condition.{IsConfig};

use crate::given::Given;
use std::alloc::Global;
use sys_config::{migrate_text, read_config};
use sys_objects::Config;
use sys_purge::{purge_config, purge_events, purge_images, purge_volumes, purged_is_accepted};
use sys_script::{Event, Typed, read_script};
use vv_base::{NoMemory, decimal};
use vv_class::AccessClass;
use vv_gen::{Workload, workload};

/// The files of a workload.
const FILES: [&str; 10] = [
    "config", "script", "IMAGE0", "IMAGE1", "IMAGE2", "IMAGE3", "IMAGE4", "IMAGE5", "IMAGE6",
    "IMAGE7",
];

/// Puts the line of a script that says an event.
fn put_event(text: &mut Vec<u8>, event: &Event) -> Result<(), NoMemory> {
    text.extend_from_slice(decimal(u64::from(event.round)).bytes())?;
    text.extend_from_slice(b" ")?;
    text.extend_from_slice(event.terminal.bytes())?;
    match &event.what {
        Typed::Break => text.extend_from_slice(b" break\n")?,
        Typed::Line(line) => {
            text.extend_from_slice(b" > ")?;
            text.extend_from_slice(line.bytes())?;
            text.extend_from_slice(b"\n")?;
        }
    }
    Ok(())
}

/// The script of these events.
fn script_text(alloc: Global, events: &[Event]) -> Result<Vec<u8>, NoMemory> {
    let mut text = Vec::new(alloc);
    for event in events {
        put_event(&mut text, event)?;
    }
    Ok(text)
}

/// The configuration without what doesn't flow into the class.
fn kept(alloc: Global, config: &Config, to: &AccessClass) -> Result<Config, NoMemory>
    requires { IsConfig config.now }
    ensures { IfOk result IsConfig }
{
    purged_is_accepted();
    purge_config(alloc, config, to)
}

impl<'t> Given<'t> {
    /// Sets the bytes of each file of a name.
    fn set(&mut self, alloc: Global, name: &[u8], bytes: &[u8]) -> Result<(), NoMemory> {
        for file in self.files.iter_mut() {
            if file.0.as_bytes() == name {
                file.1 = bytes.to_vec(alloc)?;
            }
        }
        Ok(())
    }

    /// Sets the images of the guests of a configuration.
    fn set_images(
        &mut self,
        alloc: Global,
        config: &Config,
        images: &[Vec<u8>],
    ) -> Result<(), NoMemory> {
        for (row, image) in config.guests.as_slice().iter().zip(images.iter()) {
            self.set(alloc, row.image.bytes(), image.as_slice())?;
        }
        Ok(())
    }

    /// Sets the volumes of a configuration.
    fn set_volumes(
        &mut self,
        alloc: Global,
        config: &Config,
        volumes: &[Vec<[u8; 512]>],
    ) -> Result<(), NoMemory> {
        self.volumes = Vec::new(alloc);
        for (row, blocks) in config.volumes.as_slice().iter().zip(volumes.iter()) {
            self.volumes
                .push((row.drive, Vec::from_slice(alloc, blocks.as_slice())?))?;
        }
        Ok(())
    }

    /// Sets all that a run is given; each other file is empty.
    fn set_work(&mut self, alloc: Global, work: &Workload) -> Result<(), NoMemory>
        requires { IsConfig work.now.config }
    {
        for file in self.files.iter_mut() {
            file.1 = Vec::new(alloc);
        }
        let text = migrate_text(alloc, &work.config)?;
        self.set(alloc, b"config", text.as_slice())?;
        let script = script_text(alloc, work.events.as_slice())?;
        self.set(alloc, b"script", script.as_slice())?;
        self.set_images(alloc, &work.config, work.images.as_slice())?;
        self.set_volumes(alloc, &work.config, work.volumes.as_slice())
    }

    /// Gives the workload that is drawn from a number.
    pub fn give_workload(&mut self, alloc: Global, number: u32) -> Result<(), NoMemory> {
        for name in FILES {
            self.files.push((name, Vec::new(alloc)))?;
        }
        self.set_work(alloc, &workload(alloc, number)?)
    }

    /// The bytes of the first file of a name, if it is given.
    fn bytes(&self, name: &[u8]) -> &[u8] {
        match self.files.iter().find(|file| file.0.as_bytes() == name) {
            Some(file) => file.1.as_slice(),
            None => &[],
        }
    }

    /// The images of the guests of a configuration.
    fn images(&self, alloc: Global, config: &Config) -> Result<Vec<Vec<u8>>, NoMemory> {
        let mut images = Vec::new(alloc);
        for row in config.guests.as_slice() {
            images.push(self.bytes(row.image.bytes()).to_vec(alloc)?)?;
        }
        Ok(images)
    }

    /// The blocks of a drive, if they are given.
    fn blocks_on(&self, drive: u8) -> &[[u8; 512]] {
        match self.volumes.iter().find(|volume| volume.0 == drive) {
            Some(volume) => volume.1.as_slice(),
            None => &[],
        }
    }

    /// The blocks of the volumes of a configuration.
    fn blocks(&self, alloc: Global, config: &Config) -> Result<Vec<Vec<[u8; 512]>>, NoMemory> {
        let mut volumes = Vec::new(alloc);
        for row in config.volumes.as_slice() {
            volumes.push(Vec::from_slice(alloc, self.blocks_on(row.drive))?)?;
        }
        Ok(volumes)
    }

    /// What flows into a class of a configuration and of what is given beside it.
    fn purged(
        &self,
        alloc: Global,
        config: &Config,
        events: &[Event],
        to: &AccessClass,
    ) -> Result<Workload, NoMemory>
        requires { IsConfig config.now }
        ensures { IfOk result (λ work. IsConfig work.config) }
    {
        let images = self.images(alloc, config)?;
        let volumes = self.blocks(alloc, config)?;
        Ok(Workload {
            config: kept(alloc, config, to)?,
            images: purge_images(alloc, config, images.as_slice(), to)?,
            volumes: purge_volumes(alloc, config, volumes.as_slice(), to)?,
            events: purge_events(alloc, config, events, to)?,
            rounds: 0,
        })
    }

    /// Leaves what flows into a class; whether the configuration and the script could be read.
    pub fn purge(&mut self, alloc: Global, to: &AccessClass) -> Result<bool, NoMemory> {
        let Ok(config) = read_config(alloc, self.bytes(b"config")) else {
            return Ok(false);
        };
        let Ok(events) = read_script(alloc, self.bytes(b"script")) else {
            return Ok(false);
        };
        let work = self.purged(alloc, &config, events.as_slice(), to)?;
        self.set_work(alloc, &work)?;
        Ok(true)
    }
}
