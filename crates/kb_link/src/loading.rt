//! Classes loaded from their files, and those of the platform.
ghost use Rattle.std.specs.Prelude.{◌≡◌, ◌≤◌, ◌++◌, List, length, IfOk, OnOk, IfErr};
ghost use Rattle.std.specs.List.{AllByRecursion};
ghost use Rattle.kb_class.specs.Given.{AreGiven};
ghost use Rattle.kb_class.specs.Class.{Class};
ghost use Rattle.kb_class.specs.Platform.{platform_table};
ghost use Rattle.kb_link.specs.Links.{KeepsFormat, Loads, ArePlatform, RefusesLink, most_classes};
ghost use Rattle.kb_link.specs.Tables.{refusal_of};

use kb_class::{ClassId, GivenClass, LoadedClass, PLATFORM_CLASSES};
use kb_classes::LinkRefusal;
use kb_format::{FormatFault, format_fault};
use kb_names::NoMemory;
use std::alloc::Global;

/// Refuses the first class that breaks a rule of a class file.
pub(crate) fn check_formats(alloc: Global, given: &[GivenClass]) -> Result<(), LinkRefusal>
    requires { AreGiven given.now × (length given.now ≤ most_classes) }
    ensures kept { OnOk result (AllByRecursion KeepsFormat given.now) }
    ensures refused { IfErr result (RefusesLink given.now) }
{
    for (file, class) in given.iter().enumerate() {
        match format_fault(alloc, &class.file) {
            Ok(None) => {}
            Ok(Some(fault)) => return Err(refusal_of(file as u32, fault)),
            Err(_) => return Err(LinkRefusal::NoMemory),
        }
    }
    Ok(())
}

fn refusal_of(file: u32, fault: FormatFault) -> LinkRefusal
    ensures { result ≡ refusal_of file fault }
{
    match fault {
        FormatFault::BadName(entry) => LinkRefusal::BadName(file, entry),
        FormatFault::BadDescriptor(entry) => LinkRefusal::BadDescriptor(file, entry),
        FormatFault::TwoMembers(entry) => LinkRefusal::TwoMembers(file, entry),
    }
}

/// The classes of these files, and then those of the platform.
pub(crate) fn load_all(alloc: Global, given: Vec<GivenClass>) -> Result<Vec<LoadedClass>, NoMemory>
    requires { AreGiven given.items × AllByRecursion KeepsFormat given.items × (length given.items ≤ most_classes) }
    ensures { IfOk result (λ classes. Loads given.items classes.items) }
{
    let mut classes = Vec::new(alloc);
    for class in given {
        let id = ClassId(classes.len() as u32);
        classes.push(LoadedClass::load(alloc, id, class)?)?;
    }
    with_platform(alloc, classes)
}

// These classes, and those of the platform behind them.
fn with_platform(alloc: Global, classes: Vec<LoadedClass>) -> Result<Vec<LoadedClass>, NoMemory>
    requires { length classes.items ≤ most_classes }
    ensures { IfOk result (λ all. (platform : List Class) × (all.items ≡ classes.items ++ platform) × ArePlatform (length classes.items) platform_table platform) }
{
    let mut classes = classes;
    for place in 0..PLATFORM_CLASSES {
        let id = ClassId(classes.len() as u32);
        classes.push(LoadedClass::platform(alloc, id, place)?)?;
    }
    Ok(classes)
}
