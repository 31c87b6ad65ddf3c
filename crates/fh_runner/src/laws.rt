// What a response tells of its turn.
ghost use Rattle.std.specs.Prelude.{◌≡◌, ℕ, List, Some};
ghost use Rattle.fh_runner.specs.Connections.{Course, FailsAtTheDisk, response_in};

/// A response has status 503 only where the turn of its request was answered with a fault of the disk.
pub fn unavailable_comes_of_the_disk()
    ensures { (course : Course) (body : List ℕ) → response_in course ≡ Some (503, body)
        → FailsAtTheDisk course }
{}
