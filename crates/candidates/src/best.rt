// A candidate, and the best of those seen so far.
ghost use Rattle.std.specs.Prelude.{◌≡◌, true, ◌<◌};
ghost use Rattle.search.specs.Best.{Weighed, none, stays, better};
ghost use Rattle.candidates.specs.As.{as_best, as_weighed, most_counted};

// A codeword with its soft distance and the number of positions where it differs from the hard decisions.
#[derive(Clone, Copy)]
pub struct Candidate {
    pub word: u64,
    pub distance: u16,
    pub flips: u8,
}

// The nearest candidate so far, and how many were seen. That one more can be counted is no invariant: the count reaches its bound.
#[derive(Clone, Copy)]
pub struct Best {
    pub nearest: Option<Candidate>,
    pub count: u32,
}

impl Best {
    // No candidate is seen yet.
    pub fn none() -> Best
        ensures { as_best result ≡ none }
    {
        Best {
            nearest: None,
            count: 0,
        }
    }

    // Whether this stays the best beside a candidate: it is nearer, or as near and the lower number.
    fn stays(self, c: Candidate) -> bool
        ensures { result ≡ stays (as_best self) (as_weighed c) }
    {
        match self.nearest {
            Some(best) if best.distance == c.distance => best.word < c.word,
            Some(best) => best.distance < c.distance,
            None => false,
        }
    }

    // The best with one more candidate seen.
    pub fn with(self, c: Candidate) -> Best
        requires { self.count < most_counted }
        ensures { as_best result ≡ better (as_best self) (as_weighed c) }
    {
        let count = self.count + 1;
        if self.stays(c) {
            return Best { count, ..self };
        }
        Best {
            nearest: Some(c),
            count,
        }
    }

    // Whether a candidate is found that is nearer than this distance. Only a yes is promised: a no costs time, and no answer.
    pub fn nearer(self, distance: u16) -> bool
        ensures { result ≡ true → ((as_best self).found ≡ true) × ((as_best self).distance < distance) }
    {
        match self.nearest {
            Some(best) => best.distance < distance,
            None => false,
        }
    }

    // The best with one more candidate seen, a farther one: it counts, and that is all.
    pub fn counting(self) -> Best
        requires { ((as_best self).found ≡ true) × (self.count < most_counted) }
        ensures { (c : Weighed) → (as_best self).distance < c.distance → as_best result ≡ better (as_best self) c }
    {
        Best {
            count: self.count + 1,
            ..self
        }
    }
}
