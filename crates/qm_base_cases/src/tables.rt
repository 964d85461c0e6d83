// Worked cases of the tables of the image and of timers, as tests: that memory suffices where it is ample, that rows come,
// change and go, which jobs fit a queue and which it takes first, also by a row of keys, that a job's run comes and goes
// with it, that jobs start while there are places, and which row a scan
// gives next.

mod entries;
mod files;
mod forms;
mod matching;
mod parts;
mod queues;
mod ready;
mod rows;
mod runs;
mod scans;
mod settling;
mod sites;
mod timers;
