//! The trials.
mod contents;
mod databases;
mod disks;
mod faulty_disk;
mod rows_put_again;
mod scripts;
mod stop_each;
mod version_1;
mod worked_script;
