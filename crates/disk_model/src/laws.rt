//! The laws of torn picks.
ghost use Rattle.disk_model.specs.Tears.{NoTearIsSynced, EachImageIsTorn};

/// Where no tear is picked, a crash leaves what was synced.
pub fn no_tear()
    ensures { NoTearIsSynced }
{}

/// Each image that a crash may leave is left by some tears, so that picks can choose each.
pub fn each_image()
    ensures { EachImageIsTorn }
{}
