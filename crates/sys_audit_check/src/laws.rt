ghost use Rattle.sys_audit_check.specs.Laws.{AuditsFronts, MountsTell, OkIsGranted, OneReading};

/// A record can be read in one way.
pub fn a_record_has_one_reading()
    ensures { OneReading }
{}

/// The bytes of an audit through the end of each of its lines are an audit.
pub fn the_first_lines_of_an_audit_are_an_audit()
    ensures { AuditsFronts }
{}

/// A record of an audit that says `OK` is of a command that the server grants there.
pub fn what_says_ok_is_granted()
    ensures { OkIsGranted }
{}

/// Of the server's state the mounts alone decide what it answers.
pub fn mounts_alone_tell()
    ensures { MountsTell }
{}
