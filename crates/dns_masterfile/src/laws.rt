//! What holds of every master file.
ghost use Rattle.dns_masterfile.specs.Laws.{FileIsRead, FileMeansOnce, PrintIsZone, PrintKeepsRecords};
ghost use Rattle.dns_masterfile.specs.Laws.{PrintMeansZone};

/// A file means the records that are read of it, and no others.
pub fn file_law()
    ensures read { FileIsRead }
    ensures once { FileMeansOnce }
{}

/// A zone in print means the records of the zone, whatever the origin, and what is made of them is the zone.
pub fn print_law()
    ensures means { PrintMeansZone }
    ensures keeps { PrintKeepsRecords }
    ensures back { PrintIsZone }
{}
