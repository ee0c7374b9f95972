// Wake and force: the row is that of the process that is named.
ghost use Rattle.std.specs.Prelude.{◌≡◌, ◌<◌};
ghost use Rattle.parts.specs.Effects.{forced, woken};

use crate::Parts;
use maps::Number;

impl Parts {
    pub fn force(&mut self, p: Number)
        requires { p.0 < 32 }
        ensures { self.new ≡ forced self.old p.0 }
    {
        self.row.counter = 0;
        self.ready = maps::entered(self.ready, p);
    }

    pub fn wake(&mut self, p: Number)
        requires { p.0 < 32 }
        ensures { self.new ≡ woken self.old p.0 }
    {
        if self.row.counter != 0 {
            self.force(p);
        }
    }
}
